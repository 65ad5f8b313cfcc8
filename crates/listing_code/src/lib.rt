// The text that the lister prints, written into a buffer of bytes.
#![tactic(auto)]

ghost use Rattle.std.specs.Prelude.{◌≡◌, ◌++◌, ◌+◌, ◌*◌, ◌<◌, ◌≤◌, length, drop};
ghost use Rattle.records.specs.Limits.{memory_width, max_records};
ghost use Rattle.listing.specs.Listing.{field, numbered, head_line, record_line, lines_from, listing, refusal_line, Room, Wrote, field_room, line_room, listing_room, refusal_room};

use itoa::{Buffer, Integer};

// A text put at a position. The answer is the position past it.
fn put_text(text: &[u8], out: &mut [u8], at: usize) -> usize
    requires { Room out.old at text.now }
    ensures { Wrote out.old at text.now result out.new }
{
    let end = at + text.len();
    out[at..end].copy_from_slice(text);
    end
}

// A number in decimal.
fn put_number<I: Integer>(n: I, out: &mut [u8], at: usize) -> usize
    requires { Room out.old at (I.text n) }
    ensures { Wrote out.old at (I.text n) result out.new }
{
    let mut buffer = Buffer::new();
    put_text(buffer.format(n).as_bytes(), out, at)
}

// Word number j of a line whose words end before number `end`, and a blank or the line's end.
fn put_field(words: &[i32], j: usize, end: usize, out: &mut [u8], at: usize) -> usize
    requires { (j < end) × (end ≤ length words.now) × (at + field_room ≤ length out.old) }
    ensures wrote { Wrote out.old at (field words.now j end) result out.new }
    ensures within { result ≤ at + field_room }
{
    let next = put_number(words[j], out, at);
    put_text(if j + 1 < end { b" " } else { b"\n" }, out, next)
}

// The line of record number i, without its set.
fn put_line(words: &[i32], i: usize, out: &mut [u8], at: usize) -> usize
    requires { (memory_width * i + memory_width ≤ length words.now) × (at + line_room ≤ length out.old) }
    ensures wrote { Wrote out.old at (record_line words.now i) result out.new }
    ensures within { result ≤ at + line_room }
{
    let start = records::MEMORY_WIDTH * i;
    let end = start + records::FILE_WIDTH;
    let mut next = at;
    for j in start..end {
        next = put_field(words, j, end, out, next);
    }
    next
}

// A text, and a number after it.
fn put_numbered(text: &[u8], n: u64, out: &mut [u8], at: usize) -> usize
    requires { Room out.old at (numbered text.now n) }
    ensures { Wrote out.old at (numbered text.now n) result out.new }
{
    let next = put_text(text, out, at);
    put_number(n, out, next)
}

// The line `pieces N`.
fn put_head(n: usize, out: &mut [u8], at: usize) -> usize
    requires { Room out.old at (head_line n) }
    ensures { Wrote out.old at (head_line n) result out.new }
{
    let next = put_numbered(b"pieces ", n as u64, out, at);
    put_text(b"\n", out, next)
}

// The lines of n records.
fn put_lines(words: &[i32], n: usize, out: &mut [u8], at: usize) -> usize
    requires { (memory_width * n ≤ length words.now) × (at + line_room * n ≤ length out.old) }
    ensures { Wrote out.old at (lines_from n words.now 0) result out.new }
{
    let mut next = at;
    for i in 0..n {
        next = put_line(words, i, out, next);
    }
    next
}

// The refusal's line.
fn put_refusal(number: u32, place: usize, out: &mut [u8], at: usize) -> usize
    requires { Room out.old at (refusal_line number place) }
    ensures { Wrote out.old at (refusal_line number place) result out.new }
{
    let first = put_numbered(b"refused ", number as u64, out, at);
    let second = put_numbered(b" place ", place as u64, out, first);
    put_text(b"\n", out, second)
}

// The listing of the first n records, from the first byte of `out` on. The answer is the text's length.
pub fn list_into(words: &[i32], n: usize, out: &mut [u8]) -> usize
    requires { (memory_width * n ≤ length words.now) × (n ≤ max_records) × (listing_room ≤ length out.old) }
    ensures value { result ≡ length (listing n words.now) }
    ensures out_after { out.new ≡ listing n words.now ++ drop result out.old }
{
    let next = put_head(n, out, 0);
    put_lines(words, n, out, next)
}

// The line of a refusal, likewise.
pub fn refuse_into(number: u32, place: usize, out: &mut [u8]) -> usize
    requires { refusal_room ≤ length out.old }
    ensures value { result ≡ length (refusal_line number place) }
    ensures out_after { out.new ≡ refusal_line number place ++ drop result out.old }
{
    put_refusal(number, place, out, 0)
}
