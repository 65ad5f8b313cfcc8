// Parts of the programs `cases` and `layer_cases`: the lines that they print, polygon files of staircases, and layers of squares.
// What prints answers the error of the first write that failed, and no other; what was printed before it stays, and nothing is lent to it to be changed.
#![tactic(auto)]

ghost use Rattle.std.specs.Prelude.{◌≡◌, ◌+◌, ◌*◌, ◌<◌, ◌≤◌, ◌↔◌, IsTrue, All, pos, length, take, get_or};
ghost use Rattle.records.specs.Limits.{file_width, memory_width};
ghost use Rattle.case_parts.specs.Code.{with_word, with_number, stair_x, stair_y, with_stairs, with_pairs, square, Squares};

use std::io;

pub fn refused(rt: &impl Print, number: u32, place: usize) -> io::Result<()> {
    println!(rt; "refused {number} place {place}")
}

// Ends a line.
pub fn overlays_made(rt: &impl Print, n: usize) -> io::Result<()> {
    println!(rt; " overlays {n}")
}

pub fn done(rt: &impl Print, trapezoids: usize, overlays: usize) -> io::Result<()> {
    print!(rt; "done {trapezoids}")?;
    overlays_made(rt, overlays)
}

// The same for a layer file.
pub fn done_file(rt: &impl Print, trapezoids: usize) -> io::Result<()> {
    println!(rt; "done {trapezoids}")
}

// A set of source layers, as a mask.
pub fn show_sources(rt: &impl Print, sources: i32) -> io::Result<()> {
    println!(rt; "sources {}", records_code::pattern(sources))
}

// Whether every word is w.
fn all_are(words: &[i32], w: i32) -> bool
    ensures { IsTrue result ↔ All (λ x. x ≡ w) words.now }
{
    words.iter().all(|x| *x == w)
}

fn show_state(rt: &impl Print, words: &[i32]) -> io::Result<()> {
    let state = if all_are(words, 0) {
        "zero"
    } else if all_are(words, 7) {
        "unchanged"
    } else {
        "written"
    };
    print!(rt; "{state}")
}

// Whether an output and its scratch area, which were lent with 7 in every word, are unchanged, all zero, or written.
pub fn show_states(
    rt: &impl Print,
    out: &[i32; records::MAX_WORDS],
    scratch: &[i32; records::MAX_WORDS],
) -> io::Result<()> {
    print!(rt; "output ")?;
    show_state(rt, out)?;
    print!(rt; ", scratch ")?;
    show_state(rt, scratch)?;
    println!(rt)
}

// Whether b starts with the words of a.
fn same_words(a: &[i32], b: &[i32]) -> bool
    ensures { IsTrue result ↔ (a.now ≡ take (length a.now) b.now) }
{
    b.starts_with(a)
}

pub fn show_same(rt: &impl Print, a: &[i32], b: &[i32]) -> io::Result<()> {
    if same_words(a, b) {
        println!(rt; "the same words")
    } else {
        println!(rt; "other words")
    }
}

// Word number i of a file, if it has so many, set to x.
pub fn put_word(file: &mut [u8], i: usize, x: i32)
    ensures { file.new ≡ with_word file.old i x }
{
    if i < file.len() / 4 {
        records_code::store_word(file, i, x);
    }
}

// The same with a number below 65,536.
pub fn put_number(file: &mut [u8], i: usize, n: usize)
    ensures { file.new ≡ with_number file.old i n }
{
    if n < 65536 {
        put_word(file, i, n as i32);
    }
}

// Vertices 0 to 31 of the staircase. The bottom has eight steps down to the right, vertices 0 to 15, and the top eight steps down to the
// left, vertices 16 to 31; both have a step at 2, 4, .., 14. So the events are 0, 2, .., 16, with eight columns of one trapezoid.
fn stair_x(j: usize) -> usize
    requires { j ≤ 31 }
    ensures { result ≡ stair_x j }
{
    if j < 16 {
        2 * ((j + 1) / 2)
    } else {
        2 * ((32 - j) / 2)
    }
}

fn stair_y(j: usize) -> usize
    requires { j ≤ 31 }
    ensures { result ≡ stair_y j }
{
    if j < 16 { 8 - j / 2 } else { 32 - j / 2 }
}

// Staircases from a word of a file on, 2,112 vertices or as many as fit.
pub fn stairs(file: &mut [u8], start: usize)
    requires { start ≤ 131 }
    ensures { file.new ≡ with_stairs 2112 start file.old }
{
    for i in 0..2112 {
        put_number(file, start + 2 * i, stair_x(i % 32));
        put_number(file, start + 2 * i + 1, stair_y(i % 32));
    }
}

// The pairs of 65 polygons with 32 vertices.
fn pairs(file: &mut [u8])
    ensures { file.new ≡ with_pairs 65 file.old }
{
    for i in 0..65 {
        put_number(file, 2 * i + 1, 32 * i);
        put_number(file, 2 * i + 2, 32);
    }
}

// The file of n staircases.
pub fn staircases(file: &mut [u8], n: usize)
    requires { n ≤ 65 }
    ensures { file.new ≡ with_stairs 2112 (2 * n + 1) (with_pairs 65 (with_number file.old 0 n)) }
{
    put_number(file, 0, n);
    pairs(file);
    stairs(file, 2 * n + 1);
}

// Square number k with this set. Its left lower corner is at 4 times column and row, of 32 columns, and its side is 2.
fn square(k: usize, sources: i32) -> [i32; records::MEMORY_WIDTH]
    ensures { result ≡ square k sources }
{
    let x = (4 * (k % 32)) as i32;
    let y = (4 * (k / 32 % 32)) as i32;
    [
        0,
        0,
        1,
        0,
        x,
        0,
        x + 1,
        1,
        0,
        0,
        1,
        0,
        x + 2,
        0,
        x + 3,
        1,
        x,
        y,
        x + 2,
        y,
        x,
        y + 2,
        x + 2,
        y + 2,
        sources,
    ]
}

// Squares of so many words from number 0 on, from a place on to the end.
fn fill_squares(words: &mut [i32], start: usize, width: usize, sources: i32)
    requires { (0 < width) × (width ≤ memory_width) }
    ensures { Squares start width sources words.old words.new }
{
    for i in start..words.len() {
        words[i] = square((i - start) / width, sources)[(i - start) % width];
    }
}

// Squares in memory, all with this set.
pub fn squares(words: &mut [i32], start: usize, sources: i32)
    ensures { Squares start memory_width sources words.old words.new }
{
    fill_squares(words, start, records::MEMORY_WIDTH, sources);
}

// Squares in a layer file.
pub fn file_squares(words: &mut [i32], start: usize)
    ensures { Squares start file_width (pos 0) words.old words.new }
{
    fill_squares(words, start, records::FILE_WIDTH, 0);
}
