// The limit on layers, through the public functions of `loxurfa` and `loxurfa_shapes`: 512 and 513 trapezoids; and lent sets
// of source layers, which may have any bits. Each case has its answer, which stands in the file `stdout`, and the reason.
// A write that fails ends the program with its error, and no other error comes; the words and bytes of a case are then as the calls wrote them.
#![tactic(auto)]

ghost use Rattle.std.specs.Prelude.{◌≡◌, length};

use calls::{Combined, Connected, Deoverlapped, Equality};
use std::io;

fn show_combined(rt: &impl Print, answer: Combined) -> io::Result<()> {
    match answer {
        Combined::Refused { number, place } => case_parts::refused(rt, number, place),
        Combined::Done { pieces, overlays } => case_parts::done(rt, pieces, overlays),
    }
}

fn show_deoverlapped(rt: &impl Print, answer: Deoverlapped) -> io::Result<()> {
    match answer {
        Deoverlapped::Refused { number, place } => case_parts::refused(rt, number, place),
        Deoverlapped::Done { pieces, overlays } => case_parts::done(rt, pieces, overlays),
    }
}

fn combine(rt: &impl Print, code: u32, a: &[i32], b: &[i32]) -> io::Result<()> {
    let mut out = [7i32; records::MAX_WORDS];
    let mut scratch = [7i32; records::MAX_WORDS];
    show_combined(rt, loxurfa::combine(code, a, b, &mut out, &mut scratch))?;
    case_parts::show_states(rt, &out, &scratch)
}

// With 512 squares, the square after them, all 513, and none.
fn combines(rt: &impl Print, a: &[i32], b: &[i32], more: &[i32], none: &[i32]) -> io::Result<()> {
    println!(rt; "combine")?;
    // done 512 overlays 0: B has nothing
    combine(rt, 0, a, none)?;
    // refused 12 place 0: after the first overlay 512 are in the result and one remains
    combine(rt, 0, a, b)?;
    // refused 12 place 0: after the last overlay 512 are in the result and one remains
    combine(rt, 0, b, a)?;
    // refused 12 place 0: square 0 is gone after one overlay, but square 1 remains after its first
    combine(rt, 0, a, a)?;
    // done 512 overlays 262144: 512 times 512
    combine(rt, 1, a, a)?;
    // done 0 overlays 131328: square number i is gone after i + 1
    combine(rt, 2, a, a)?;
    // refused 1 place 0: 513 records
    combine(rt, 0, more, none)
}

fn deoverlap(rt: &impl Print, a: &[i32]) -> io::Result<()> {
    let mut out = [7i32; records::MAX_WORDS];
    let mut scratch = [7i32; records::MAX_WORDS];
    show_deoverlapped(rt, loxurfa::deoverlap(a, &mut out, &mut scratch))?;
    case_parts::show_states(rt, &out, &scratch)
}

// With 512 squares, and 513.
fn deoverlaps(rt: &impl Print, a: &[i32], more: &[i32]) -> io::Result<()> {
    println!(rt; "deoverlap")?;
    // done 512 overlays 130816: square number i meets the i before it
    deoverlap(rt, a)?;
    // refused 1 place 0: 513 records
    deoverlap(rt, more)
}

fn equal(rt: &impl Print, a: &[i32], b: &[i32]) -> io::Result<()> {
    let mut out = [7i32; records::MAX_WORDS];
    let mut scratch = [7i32; records::MAX_WORDS];
    match loxurfa::equal(a, b, &mut out, &mut scratch) {
        Equality::Refused { number, place } => case_parts::refused(rt, number, place)?,
        Equality::Same { overlays } => {
            print!(rt; "same")?;
            case_parts::overlays_made(rt, overlays)?;
        }
        Equality::Differs { operand, overlays } => {
            print!(rt; "differs {operand}")?;
            case_parts::overlays_made(rt, overlays)?;
        }
    }
    case_parts::show_states(rt, &out, &scratch)
}

// With 512 squares, and 511.
fn equals(rt: &impl Print, a: &[i32], less: &[i32]) -> io::Result<()> {
    println!(rt; "equal")?;
    // same overlays 262656: 131,328 each way
    equal(rt, a, a)?;
    // differs 1 overlays 262143: A minus B makes 130,816, B minus A 130,816 and 511 for its last square, which remains
    equal(rt, less, a)
}

fn components(rt: &impl Print, a: &[i32], numbers: &mut [u32]) -> io::Result<()> {
    match loxurfa_shapes::components(a, numbers) {
        Connected::Refused { number, place } => case_parts::refused(rt, number, place),
        Connected::Done { components } => println!(rt; "components {components}"),
    }
}

// With 512 squares, and 513.
fn component_counts(rt: &impl Print, a: &[i32], more: &[i32]) -> io::Result<()> {
    println!(rt; "components")?;
    let mut numbers = [0u32; records::MAX_RECORDS];
    // components 512: no two touch
    components(rt, a, &mut numbers)?;
    let mut more_numbers = [0u32; 513];
    // refused 1 place 0: an entry too many
    components(rt, a, &mut more_numbers)?;
    // refused 1 place 0: 513 records
    components(rt, more, &mut more_numbers)
}

// With one square as A and as B, with different sets: the set of the square that is written.
fn combine_sources(rt: &impl Print, code: u32, a: &[i32], b: &[i32]) -> io::Result<()> {
    let mut out = [7i32; records::MEMORY_WIDTH];
    let mut scratch = [7i32; records::MEMORY_WIDTH];
    show_combined(rt, loxurfa::combine(code, a, b, &mut out, &mut scratch))?;
    case_parts::show_sources(rt, out[records::FILE_WIDTH])
}

fn deoverlap_sources(rt: &impl Print, a: &[i32]) -> io::Result<()> {
    let mut out = [7i32; records::MEMORY_WIDTH];
    let mut scratch = [7i32; records::MEMORY_WIDTH];
    show_deoverlapped(rt, loxurfa::deoverlap(a, &mut out, &mut scratch))?;
    case_parts::show_sources(rt, out[records::FILE_WIDTH])
}

fn sets(rt: &impl Print) -> io::Result<()> {
    println!(rt; "sources")?;
    // layers 0 and 2
    let mut a = [0i32; records::MEMORY_WIDTH];
    case_parts::squares(&mut a, 0, 5);
    // layers 2 and 31
    let mut b = [0i32; records::MEMORY_WIDTH];
    case_parts::squares(&mut b, 0, -2147483644);
    // done 1 overlays 1, sources 2147483653: layers 0, 2 and 31
    combine_sources(rt, 1, &a, &b)?;
    // done 1 overlays 1, sources 5: A's square, and nothing remains of B's
    combine_sources(rt, 0, &a, &b)?;
    // done 1 overlays 0, sources 2147483652: B's square minus nothing
    combine_sources(rt, 3, &a[..0], &b)?;
    // done 1 overlays 0, sources 2147483652
    deoverlap_sources(rt, &b)
}

// All cases of 513 squares; the first 512 have 12,800 words.
fn layers(rt: &impl Print, squares: &[i32]) -> io::Result<()>
    requires { length squares.now ≡ 12825 }
{
    let a = &squares[..records::MAX_WORDS];
    combines(
        rt,
        a,
        &squares[records::MAX_WORDS..],
        squares,
        &squares[..0],
    )?;
    deoverlaps(rt, a, squares)?;
    equals(rt, a, &squares[..12775])?;
    component_counts(rt, a, squares)
}

fn main(rt: HostRuntime) -> io::Result<()> {
    let mut squares = [0i32; 12825];
    // all with the set of all source layers
    case_parts::squares(&mut squares, 0, -1);
    layers(&rt, &squares)?;
    sets(&rt)
}
