// The public interface, points: set operations, deoverlapping, equality and the point question of layers of trapezoids, for every
// input. The other public functions are in `loxurfa_files` and `loxurfa_shapes`.
#![tactic(auto)]

ghost use Rattle.std.specs.Prelude.{◌≡◌};
ghost use Rattle.files.specs.Outcomes.{SmallAnswer};
ghost use Rattle.calls.specs.Promises.{CombineKept, DeoverlapKept, EqualKept, ContainsKept};
ghost use Rattle.calls.specs.Answers.{combined_answer, deoverlapped_answer, equality_answer, point_answer, SmallEqualityAnswer, SmallPointAnswer};
ghost use Rattle.calls.specs.Rows.{plate_limit};
ghost use Rattle.calls.specs.Outcomes.{contains_answer};
ghost use Rattle.geometry_code.specs.Code.{point_of};

use boolean::Folded;
use calls::{Combined, Containment, Deoverlapped, Equality};
use geometry::Refusal;
use integer::Int;

// The set operation with this code on a and b, written to `out`. `scratch` is as long as `out`.
pub fn combine(code: u32, a: &[i32], b: &[i32], out: &mut [i32], scratch: &mut [i32]) -> Combined
    ensures combine_kept { CombineKept plate_limit code a.now b.now out.old scratch.old result out.new scratch.new }
    ensures small { SmallAnswer (combined_answer result) }
{
    let checked = rows_code::combine_checked(
        calls::PLATE_LIMIT,
        code,
        a,
        b,
        out.len(),
        scratch.len(),
    );
    if let Err(Refusal { number, place }) = checked {
        return Combined::Refused { number, place };
    }
    searched_code::combine_searched(code, a, b, out, scratch)
}

// The trapezoids of a without overlaps, written to `out`. `scratch` is as long as `out`.
pub fn deoverlap(a: &[i32], out: &mut [i32], scratch: &mut [i32]) -> Deoverlapped
    ensures deoverlap_kept { DeoverlapKept plate_limit a.now out.old scratch.old result out.new scratch.new }
    ensures small { SmallAnswer (deoverlapped_answer result) }
{
    let checked = rows_code::deoverlap_checked(calls::PLATE_LIMIT, a, out.len(), scratch.len());
    if let Err(Refusal { number, place }) = checked {
        return Deoverlapped::Refused { number, place };
    }
    let room = out.len() / records::MEMORY_WIDTH;
    records_code::clear_both(out, scratch);
    match deoverlap_code::deoverlap_into(a, out, scratch, room) {
        Ok(
            Folded {
                trapezoids,
                overlays,
            },
        ) => Deoverlapped::Done {
            pieces: trapezoids,
            overlays,
        },
        Err(_) => Deoverlapped::Refused {
            number: 12,
            place: 0,
        },
    }
}

// Whether the same points lie in a and b. `out` and `scratch`, which is as long, are left blank.
pub fn equal(a: &[i32], b: &[i32], out: &mut [i32], scratch: &mut [i32]) -> Equality
    ensures equal_kept { EqualKept plate_limit a.now b.now out.old scratch.old result out.new scratch.new }
    ensures small { SmallEqualityAnswer (equality_answer result) }
{
    let checked = rows_code::equal_checked(calls::PLATE_LIMIT, a, b, out.len(), scratch.len());
    if let Err(Refusal { number, place }) = checked {
        return Equality::Refused { number, place };
    }
    searched_code::equal_searched(a, b, out, scratch)
}

// The point question, of numbers.
fn contains_at(x: Int, y: Int, d: Int, a: &[i32], b: &[i32], code: u32) -> Containment
    ensures result_value { point_answer result ≡ contains_answer plate_limit (point_of x y d) a.now b.now code }
    ensures small { SmallPointAnswer (point_answer result) }
{
    let checked = rows_code::contains_checked(calls::PLATE_LIMIT, x, y, d, a, b, code);
    if let Err(Refusal { number, place }) = checked {
        return Containment::Refused { number, place };
    }
    if point_code::lies_in_result(code, a, b, x, y, d) {
        Containment::Yes
    } else {
        Containment::No
    }
}

// Whether the point (x/d, y/d) lies in the result of the set operation with this code on a and b.
pub fn contains(x: i32, y: i32, d: i32, a: &[i32], b: &[i32], code: u32) -> Containment
    ensures contains_kept { ContainsKept plate_limit x y d a.now b.now code result }
    ensures small { SmallPointAnswer (point_answer result) }
{
    let p = integer_code::widen(x);
    let q = integer_code::widen(y);
    let e = integer_code::widen(d);
    contains_at(p, q, e, a, b, code)
}
