// The words of a layer file between its bytes and memory: read, each trapezoid with an empty set of source layers, and written without the sets.
#![tactic(auto)]

ghost use Rattle.std.specs.Prelude.{◌≡◌, ◌++◌, ◌+◌, ◌*◌, ◌<◌, ◌≤◌, ◌/◌, length, drop};
ghost use Rattle.records.specs.Limits.{file_width, memory_width};
ghost use Rattle.records.specs.Records.{records, words_of};
ghost use Rattle.records.specs.Words.{word_codec};
ghost use Rattle.geometry.specs.Trapezoids.{trapezoid_codec, layer_of};
ghost use Rattle.files.specs.Formats.{file_words, layer_file, layer_words};
ghost use Rattle.files.specs.Pairs.{count_in};
ghost use Rattle.files.specs.Directory.{HasPairs};
ghost use Rattle.files.specs.Contents.{units_of, file_codec, memory_words, written_words};

use directory_code::Words;

// The words up to the body: the count and the pairs.
fn body_start<W: Words>(words: W) -> usize
    requires { (0 < W.size words) × (count_in (W.words words) ≤ 64) }
    ensures { result ≡ 2 * count_in (W.words words) + 1 }
{
    2 * directory_code::amount_of(directory_code::word_at(words, 0)) + 1
}

// The trapezoids of a layer file that passes.
pub fn file_trapezoids(file: &[u8]) -> usize
    requires { HasPairs layer_file (file_words file.now) (count_in (file_words file.now)) }
    ensures { result ≡ length (units_of file_codec (file_words file.now)) }
{
    (file.size() - body_start(file)) / records::FILE_WIDTH
}

// The same of a layer file's words.
pub fn words_trapezoids(words: &[i32]) -> usize
    requires { HasPairs layer_words words.now (count_in words.now) }
    ensures { result ≡ length (units_of trapezoid_codec words.now) }
{
    (words.len() - body_start(words)) / records::MEMORY_WIDTH
}

// How many words a layer file that passes has in memory.
pub fn memory_length(file: &[u8]) -> usize
    requires { HasPairs layer_file (file_words file.now) (count_in (file_words file.now)) }
    ensures { result ≡ length (memory_words (file_words file.now)) }
{
    file.size() + file_trapezoids(file)
}

// How many words a layer file's words have in the file.
pub fn written_length(words: &[i32]) -> usize
    requires { HasPairs layer_words words.now (count_in words.now) }
    ensures { result ≡ length (written_words words.now) }
{
    words.len() - words_trapezoids(words)
}

// The trapezoids of a layer file's body to the front of an output, each with an empty set.
fn decode_body(body: &[u8], out: &mut [i32])
    requires { memory_width * (length body.now / 4 / file_width) ≤ length out.old }
    ensures { out.new ≡ words_of trapezoid_codec (records file_codec (file_words body.now)) ++ drop (memory_width * (length body.now / 4 / file_width)) out.old }
{
    for i in 0..body.size() / records::FILE_WIDTH {
        let t = files_code::load_file_trapezoid(body, i);
        trapezoids_code::store(&mut out[records::MEMORY_WIDTH * i..], t);
    }
}

// The words in memory of a layer file that passes, to the front of an output.
pub fn decode(file: &[u8], out: &mut [i32])
    requires { HasPairs layer_file (file_words file.now) (count_in (file_words file.now)) × (length (memory_words (file_words file.now)) ≤ length out.old) }
    ensures { out.new ≡ memory_words (file_words file.now) ++ drop (length (memory_words (file_words file.now))) out.old }
{
    let start = body_start(file);
    files_code::load_words(file, 0, &mut out[..start]);
    decode_body(&file[4 * start..], &mut out[start..]);
}

// The bytes of words to the front of an output.
fn encode_words(words: &[i32], out: &mut [u8])
    requires { 4 * length words.now ≤ length out.old }
    ensures { out.new ≡ words_of word_codec words.now ++ drop (4 * length words.now) out.old }
{
    for (i, word) in words.iter().enumerate() {
        records_code::store_word(out, i, *word);
    }
}

// The bytes of a layer's trapezoids, without their sets, to the front of an output.
fn encode_body(body: &[i32], out: &mut [u8])
    requires { 4 * (file_width * (length body.now / memory_width)) ≤ length out.old }
    ensures { out.new ≡ words_of word_codec (words_of file_codec (layer_of body.now)) ++ drop (4 * (file_width * (length body.now / memory_width))) out.old }
{
    for i in 0..body.len() / records::MEMORY_WIDTH {
        let at = records::MEMORY_WIDTH * i;
        let end = at + records::FILE_WIDTH;
        encode_words(&body[at..end], &mut out[4 * records::FILE_WIDTH * i..]);
    }
}

// The bytes of a layer file with these words, to the front of an output.
pub fn encode(words: &[i32], out: &mut [u8])
    requires { HasPairs layer_words words.now (count_in words.now) × (4 * length (written_words words.now) ≤ length out.old) }
    ensures { out.new ≡ words_of word_codec (written_words words.now) ++ drop (4 * length (written_words words.now)) out.old }
{
    let start = body_start(words);
    encode_words(&words[..start], out);
    encode_body(&words[start..], &mut out[4 * start..]);
}
