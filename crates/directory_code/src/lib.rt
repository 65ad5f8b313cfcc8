// Numbers in files, and rows 4 to 6: the size of a file, the count and the pairs of its directory.
#![tactic(auto)]

ghost use Rattle.std.specs.Prelude.{◌≡◌, refl, List, ℕ, ◌+◌, ◌*◌, ◌≤◌, ◌<◌, ◌/◌, ℤ, nat_abs, length};
ghost use Rattle.integer.specs.Integer.{limit32, limit64};
ghost use Rattle.files.specs.Formats.{file_sized, file_words, word_at, polygon_file, layer_file, layer_words, Modest};
ghost use Rattle.files.specs.Pairs.{natural_of, amount_of, count_in, next_offset, length_read};
ghost use Rattle.files.specs.Directory.{number_from, complete, pair_length, end_of, pairs_from, directory_of};
ghost use Rattle.files.proofs.Reading.{length_file};
ghost use Rattle.directory_code.specs.Code.{Complete};

use files::{Directory, Edition, Format};
use geometry::Refusal;
use integer::Int;

pub fn polygon_format(edition: Edition) -> Format
    ensures { result ≡ polygon_file edition }
{
    Format {
        unit: 2,
        count: 64,
        least: 3,
        most: 32,
        total: 2048,
        found: matches!(edition, Edition::New),
    }
}

pub fn layer_format() -> Format
    ensures { result ≡ layer_file }
{
    Format {
        unit: records::FILE_WIDTH,
        count: 16,
        least: 0,
        most: records::MAX_RECORDS,
        total: records::MAX_RECORDS,
        found: false,
    }
}

pub fn memory_format() -> Format
    ensures { result ≡ layer_words }
{
    Format {
        unit: records::MEMORY_WIDTH,
        ..layer_format()
    }
}

// Row 4 lets a file of n bytes pass.
pub fn file_sized(n: usize) -> bool
    ensures { result ≡ file_sized n }
{
    n % 4 == 0 && 4 <= n && n <= 65532
}

fn natural(x: Int) -> Option<usize>
    ensures { result ≡ natural_of x.v }
{
    usize::try_from(x.v).ok()
}

// The number of a word that is from least to most.
fn number_from(x: Int, least: usize, most: usize) -> Option<usize>
    ensures { result ≡ number_from least most x.v }
{
    natural(x).filter(|n| least <= *n && *n <= most)
}

// Words that are read one by one: those of memory, and those of a file's bytes.
pub trait Words: Copy {
    ghost words: { Self → List ℤ };

    // How many there are.
    ghost size: { Self → ℕ };

    fn size(self) -> usize
        ensures value { result ≡ size self }
        ensures bound { 4 * result < limit64 };

    // Word number i.
    fn at(self, i: usize) -> i32
        requires { i < size self }
        ensures { result ≡ word_at (words self) i };

    ghost all: { (s : Self) → length (words s) ≡ size s };
}

impl Words for &[i32] {
    ghost words = { λ s. s.now };

    ghost size = { λ s. length s.now };

    fn size(self) -> usize {
        self.len()
    }

    fn at(self, i: usize) -> i32 {
        self[i]
    }

    ghost all = { λ s. refl };
}

impl Words for &[u8] {
    ghost words = { λ s. file_words s.now };

    ghost size = { λ s. length s.now / 4 };

    fn size(self) -> usize {
        self.len() / 4
    }

    fn at(self, i: usize) -> i32 {
        records_code::load_word(self, i)
    }

    ghost all = { λ s. length_file s.now };
}

// Word number i, as a number.
pub fn word_at<W: Words>(words: W, i: usize) -> Int
    requires { i < W.size words }
    ensures v_value { result.v ≡ word_at (W.words words) i }
    ensures magnitude { nat_abs result.v ≤ limit32 }
{
    integer_code::widen(words.at(i))
}

// Row 5: the count of pairs from word 0 and the number of words.
fn count_of(f: Format, first: Int, words: usize) -> Option<usize>
    requires { Modest f }
    ensures { result ≡ complete (number_from 0 f.count first.v) words }
{
    let n = number_from(first, 0, f.count)?;
    (2 * n + 1 <= words).then_some(n)
}

// Row 6: the length of a pair with so many units before it.
fn pair_length(f: Format, before: usize, offset: Int, len: Int) -> Option<usize>
    requires { Modest f × (before ≤ f.total) }
    ensures { result ≡ pair_length f before offset.v len.v }
{
    number_from(offset, before, before)?;
    let n = number_from(len, f.least, f.most)?;
    (n <= f.total - before).then_some(n)
}

// Row 6: the end of n pairs of so many units.
fn end_of(f: Format, n: usize, total: usize, words: usize) -> Result<Directory, Refusal>
    requires { Modest f × (n ≤ 64) × (total ≤ 2048) }
    ensures { result ≡ end_of f n total words }
{
    if 2 * n + 1 + f.unit * total == words {
        Ok(Directory { count: n, total })
    } else {
        Err(Refusal {
            number: 6,
            place: n,
        })
    }
}

// Where pair number i of n ends if its length is left out: the next offset, or the units of the body.
fn next_offset<W: Words>(words: W, f: Format, n: usize, i: usize) -> Int
    requires { Modest f × Complete (W.words words) (W.size words) n × (i < n) }
    ensures v_value { result.v ≡ next_offset f (W.words words) i }
    ensures magnitude { nat_abs result.v + limit32 < limit64 }
{
    if i + 1 < n {
        return word_at(words, 2 * (i + 1) + 1);
    }
    let start = 2 * n + 1;
    let body = words.size() - start;
    integer_code::of((body / f.unit) as i64)
}

// The length of pair number i of n: as it is written, or found where it is left out.
pub fn length_read<W: Words>(words: W, f: Format, n: usize, i: usize) -> Int
    requires { Modest f × Complete (W.words words) (W.size words) n × (i < n) }
    ensures { result.v ≡ length_read f (W.words words) i }
{
    let len = word_at(words, 2 * i + 2);
    if !f.found || natural(len) != Some(0) {
        return len;
    }
    let from = word_at(words, 2 * i + 1);
    integer_code::sub(next_offset(words, f, n, i), from)
}

// Row 6 of n pairs.
fn pairs<W: Words>(words: W, f: Format, n: usize) -> Result<Directory, Refusal>
    requires { Modest f × Complete (W.words words) (W.size words) n }
    ensures { result ≡ pairs_from f (W.words words) n 0 0 }
{
    let mut total = 0;
    for i in 0..n {
        let offset = word_at(words, 2 * i + 1);
        let len = length_read(words, f, n, i);
        let Some(k) = pair_length(f, total, offset, len) else {
            return Err(Refusal {
                number: 6,
                place: i,
            });
        };
        total += k;
    }
    end_of(f, n, total, words.size())
}

// Rows 5 and 6.
pub fn directory<W: Words>(words: W, f: Format) -> Result<Directory, Refusal>
    requires { Modest f }
    ensures { result ≡ directory_of f (W.words words) }
{
    let size = words.size();
    if size == 0 {
        return Err(Refusal {
            number: 5,
            place: 0,
        });
    }
    let Some(n) = count_of(f, word_at(words, 0), size) else {
        return Err(Refusal {
            number: 5,
            place: 0,
        });
    };
    pairs(words, f, n)
}

// The number of a word, and 0 for a negative one.
pub fn amount_of(x: Int) -> usize
    ensures { result ≡ amount_of x.v }
{
    natural(x).unwrap_or(0)
}
