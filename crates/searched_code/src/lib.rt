// Set operations and the equality test of layers of fit trapezoids: first the search for overlaps, by the boxes of the layers, and then
// the operation, by the same boxes.
#![tactic(auto)]

ghost use Rattle.std.specs.Prelude.{◌≡◌, true, ◌<◌, length};
ghost use Rattle.geometry.specs.Fitness.{FitLayer};
ghost use Rattle.files.specs.Outcomes.{SmallAnswer};
ghost use Rattle.calls.specs.Answers.{combined_answer, equality_answer, SmallEqualityAnswer};
ghost use Rattle.calls.specs.Rows.{buffers_sized};
ghost use Rattle.boxes_code.specs.Code.{BoxedLayer, RoomForBoxes};
ghost use Rattle.searched_code.specs.Code.{CombineSearched, EqualSearched};

use boolean::{Compared, Folded};
use boxes_code::Layer;
use calls::{Combined, Equality};
use geometry::Refusal;

// The set operation with the code's number, by the boxes of both layers.
fn combine_boxed(code: u32, a: Layer, b: Layer, out: &mut [i32], scratch: &mut [i32]) -> Combined
    requires code_bound { code < 5 }
    requires scratch_value { buffers_sized (length out.old) (length scratch.old) ≡ true }
    ensures combine_searched { CombineSearched code a.entry.words.now b.entry.words.now out.old scratch.old result out.new scratch.new }
    ensures small { SmallAnswer (combined_answer result) }
{
    if let Err(Refusal { number, place }) = disjoint_code::both_disjoint(a, b) {
        return Combined::Refused { number, place };
    }
    let room = out.len() / records::MEMORY_WIDTH;
    records_code::clear_both(out, scratch);
    match boolean_code::combine_boxed(
        code, a.words, a.boxes, b.words, b.boxes, out, scratch, room,
    ) {
        Ok(
            Folded {
                trapezoids,
                overlays,
            },
        ) => Combined::Done {
            pieces: trapezoids,
            overlays,
        },
        Err(_) => Combined::Refused {
            number: 12,
            place: 0,
        },
    }
}

// The same, where the boxes are yet to be worked out.
fn combine_with(
    code: u32,
    a: &[i32],
    a_boxes: &mut [i64],
    b: &[i32],
    b_boxes: &mut [i64],
    out: &mut [i32],
    scratch: &mut [i32],
) -> Combined
    requires code_bound { (code < 5) × RoomForBoxes a.now a_boxes.old × RoomForBoxes b.now b_boxes.old }
    requires scratch_value { buffers_sized (length out.old) (length scratch.old) ≡ true }
    ensures combine_searched { CombineSearched code a.now b.now out.old scratch.old result out.new scratch.new }
    ensures small { SmallAnswer (combined_answer result) }
{
    let first = boxes_code::boxed(a, a_boxes);
    let second = boxes_code::boxed(b, b_boxes);
    combine_boxed(code, first, second, out, scratch)
}

// The set operation with the code's number.
pub fn combine_searched(
    code: u32,
    a: &[i32],
    b: &[i32],
    out: &mut [i32],
    scratch: &mut [i32],
) -> Combined
    requires code_bound { (code < 5) × FitLayer a.now × FitLayer b.now }
    requires scratch_value { buffers_sized (length out.old) (length scratch.old) ≡ true }
    ensures combine_searched { CombineSearched code a.now b.now out.old scratch.old result out.new scratch.new }
    ensures small { SmallAnswer (combined_answer result) }
{
    if boxes_code::both_small(a, b) {
        let mut one = [0; boxes::FEW_WORDS];
        let mut two = [0; boxes::FEW_WORDS];
        return combine_with(code, a, &mut one, b, &mut two, out, scratch);
    }
    let mut one = [0; boxes::MOST_WORDS];
    let mut two = [0; boxes::MOST_WORDS];
    combine_with(code, a, &mut one, b, &mut two, out, scratch)
}

// The equality test, by the boxes of both layers.
fn equal_boxed(a: Layer, b: Layer, out: &mut [i32], scratch: &mut [i32]) -> Equality
    requires scratch_value { buffers_sized (length out.old) (length scratch.old) ≡ true }
    ensures equal_searched { EqualSearched a.entry.words.now b.entry.words.now out.old scratch.old result out.new scratch.new }
    ensures small { SmallEqualityAnswer (equality_answer result) }
{
    if let Err(Refusal { number, place }) = disjoint_code::both_disjoint(a, b) {
        return Equality::Refused { number, place };
    }
    let room = out.len() / records::MEMORY_WIDTH;
    records_code::clear_both(out, scratch);
    match equality_code::equal_boxed(a.words, a.boxes, b.words, b.boxes, out, scratch, room) {
        Compared::NoRoom(_) => Equality::Refused {
            number: 12,
            place: 0,
        },
        Compared::Same(overlays) => Equality::Same { overlays },
        Compared::Differs { operand, overlays } => Equality::Differs { operand, overlays },
    }
}

// The same, where the boxes are yet to be worked out.
fn equal_with(
    a: &[i32],
    a_boxes: &mut [i64],
    b: &[i32],
    b_boxes: &mut [i64],
    out: &mut [i32],
    scratch: &mut [i32],
) -> Equality
    requires room_for_boxes { RoomForBoxes a.now a_boxes.old × RoomForBoxes b.now b_boxes.old }
    requires scratch_value { buffers_sized (length out.old) (length scratch.old) ≡ true }
    ensures equal_searched { EqualSearched a.now b.now out.old scratch.old result out.new scratch.new }
    ensures small { SmallEqualityAnswer (equality_answer result) }
{
    let first = boxes_code::boxed(a, a_boxes);
    let second = boxes_code::boxed(b, b_boxes);
    equal_boxed(first, second, out, scratch)
}

// Whether no point lies in one of the layers and not in the other.
pub fn equal_searched(a: &[i32], b: &[i32], out: &mut [i32], scratch: &mut [i32]) -> Equality
    requires fit_layer { FitLayer a.now × FitLayer b.now }
    requires scratch_value { buffers_sized (length out.old) (length scratch.old) ≡ true }
    ensures equal_searched { EqualSearched a.now b.now out.old scratch.old result out.new scratch.new }
    ensures small { SmallEqualityAnswer (equality_answer result) }
{
    if boxes_code::both_small(a, b) {
        let mut one = [0; boxes::FEW_WORDS];
        let mut two = [0; boxes::FEW_WORDS];
        return equal_with(a, &mut one, b, &mut two, out, scratch);
    }
    let mut one = [0; boxes::MOST_WORDS];
    let mut two = [0; boxes::MOST_WORDS];
    equal_with(a, &mut one, b, &mut two, out, scratch)
}
