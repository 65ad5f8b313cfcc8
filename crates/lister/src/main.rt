// Lists a polygon file: reads it on standard input, fractures it, deoverlaps the trapezoids, and prints them on standard output.
#![tactic(auto)]

ghost use Rattle.std.specs.Prelude.{◌≡◌, ◌<◌, ◌≤◌, ℕ, length, take, IfOk, OnOk, OnErr};
ghost use Rattle.std.specs.Io.KnownBytes.{Appends, Consumes, IsAtEnd};
ghost use Rattle.records.specs.Limits.{max_words};
ghost use Rattle.listing.specs.Listing.{listing_room};
ghost use Rattle.listing.specs.Lister.{deoverlap_listed, listed};
ghost use Rattle.lister.specs.Code.{Put};

use anyhow::{Context, Result};
use calls::{Deoverlapped, Fractured};
use std::io;
use std::io::{Read, Write};

// How much of the input is read: a file of more than 65,532 bytes is refused, whatever follows.
const ENOUGH_BYTES: usize = 65536;

// The text for a layer, deoverlapped into `out`, at the start of `text`. The answer is its length.
fn list_layer(layer: &[i32], out: &mut [i32], scratch: &mut [i32], text: &mut [u8]) -> usize
    requires { (length out.old ≡ max_words) × (length scratch.old ≡ max_words) × (listing_room ≤ length text.old) }
    ensures { Put (deoverlap_listed layer.now) text.old result text.new }
{
    match loxurfa::deoverlap(layer, out, scratch) {
        Deoverlapped::Refused { number, place } => listing_code::refuse_into(number, place, text),
        Deoverlapped::Done { pieces, .. } => listing_code::list_into(out, pieces, text),
    }
}

// The text for the bytes of a polygon file, fractured into `first` as source layer 0, likewise. Sets are not printed.
fn list_file(
    file: &[u8],
    first: &mut [i32],
    out: &mut [i32],
    scratch: &mut [i32],
    text: &mut [u8],
) -> usize
    requires { (length first.old ≡ max_words) × (length out.old ≡ max_words) × (length scratch.old ≡ max_words) × (listing_room ≤ length text.old) }
    ensures { Put (listed file.now) text.old result text.new }
{
    match loxurfa_files::fracture(0, file, first, scratch) {
        Fractured::Refused { number, place } => listing_code::refuse_into(number, place, text),
        Fractured::Done { pieces, .. } => {
            let end = records::MEMORY_WIDTH * pieces;
            list_layer(&first[..end], out, scratch, text)
        }
    }
}

// Reads until `file` is full or the input ends. The answer is how many bytes came. An error is that of the read that failed; what came before it stands
// at the start of `file`.
fn read_file<R: Read>(input: &mut R, file: &mut [u8]) -> io::Result<usize>
    ensures within { IfOk result (λ n. n ≤ length file.new) }
    ensures came { IfOk result (λ n. Consumes (R.remaining input.old) (R.remaining input.new) (take n file.new)) }
    ensures end { IfOk result (λ n. n < length file.new → IsAtEnd (R.remaining input.new)) }
    ensures err { OnErr result ((k : ℕ) × (k ≤ length file.new) × Consumes (R.remaining input.old) (R.remaining input.new) (take k file.new)) }
{
    let mut at = 0;
    while at < file.len() {
        let n = input.read(&mut file[at..])?;
        if n == 0 {
            return Ok(at);
        }
        at += n;
    }
    Ok(at)
}

// The text for the bytes of a polygon file, written to `output`. An error is that of the write that failed; how much of the text is written then is not told.
fn print_listing<W: Write>(file: &[u8], output: &mut W) -> io::Result<()>
    ensures { OnOk result (Appends (W.contents output.old) (W.contents output.new) (listed file.now)) }
{
    let mut first = [0i32; records::MAX_WORDS];
    let mut out = [0i32; records::MAX_WORDS];
    let mut scratch = [0i32; records::MAX_WORDS];
    let mut text = [0u8; listing::LISTING_ROOM];
    let n = list_file(file, &mut first, &mut out, &mut scratch, &mut text);
    output.write_all(&text[..n])
}

fn main(rt: HostRuntime) -> Result<()> {
    let mut file = [0u8; ENOUGH_BYTES];
    let n = read_file(&mut rt.reader(), &mut file).context("standard input")?;
    print_listing(&file[..n], &mut io::writer(&rt)).context("standard output")
}
