// The transistors of three layers of fit trapezoids, once their boxes are worked out.
#![tactic(auto)]

ghost use Rattle.std.specs.Prelude.{◌≡◌, true, length};
ghost use Rattle.geometry.specs.Fitness.{FitLayer};
ghost use Rattle.files.specs.Outcomes.{SmallAnswer};
ghost use Rattle.calls.specs.Rows.{buffers_sized};
ghost use Rattle.calls.specs.Transistors.{extracted_answer};
ghost use Rattle.boxes_code.specs.Code.{RoomForBoxes};
ghost use Rattle.searched_transistors_code.specs.Code.{TransistorsSearched};

use calls::Extracted;

// The transistors, where the boxes of the layers are yet to be worked out.
fn transistors_with(
    collectors: &[i32],
    collector_boxes: &mut [i64],
    bases: &[i32],
    base_boxes: &mut [i64],
    emitters: &[i32],
    emitter_boxes: &mut [i64],
    list: &mut [u32],
    out: &mut [i32],
    scratch: &mut [i32],
) -> Extracted
    requires room_for_boxes { RoomForBoxes collectors.now collector_boxes.old × RoomForBoxes bases.now base_boxes.old × RoomForBoxes emitters.now emitter_boxes.old }
    requires scratch_value { buffers_sized (length out.old) (length scratch.old) ≡ true }
    ensures transistors_searched { TransistorsSearched collectors.now bases.now emitters.now list.old out.old scratch.old result list.new out.new scratch.new }
    ensures small { SmallAnswer (extracted_answer result) }
{
    boxes_code::fill_boxes(collectors, collector_boxes);
    boxes_code::fill_boxes(bases, base_boxes);
    boxes_code::fill_boxes(emitters, emitter_boxes);
    searched_transistors_code::transistors_boxed(
        collectors,
        collector_boxes,
        bases,
        base_boxes,
        emitters,
        emitter_boxes,
        list,
        out,
        scratch,
    )
}

// The transistors of three layers.
pub fn transistors_into(
    collectors: &[i32],
    bases: &[i32],
    emitters: &[i32],
    list: &mut [u32],
    out: &mut [i32],
    scratch: &mut [i32],
) -> Extracted
    requires fit_layer { FitLayer collectors.now × FitLayer bases.now × FitLayer emitters.now }
    requires scratch_value { buffers_sized (length out.old) (length scratch.old) ≡ true }
    ensures transistors_searched { TransistorsSearched collectors.now bases.now emitters.now list.old out.old scratch.old result list.new out.new scratch.new }
    ensures small { SmallAnswer (extracted_answer result) }
{
    if extraction_code::all_small(collectors, bases, emitters) {
        let mut one = [0; boxes::FEW_WORDS];
        let mut two = [0; boxes::FEW_WORDS];
        let mut three = [0; boxes::FEW_WORDS];
        return transistors_with(
            collectors, &mut one, bases, &mut two, emitters, &mut three, list, out, scratch,
        );
    }
    let mut one = [0; boxes::MOST_WORDS];
    let mut two = [0; boxes::MOST_WORDS];
    let mut three = [0; boxes::MOST_WORDS];
    transistors_with(
        collectors, &mut one, bases, &mut two, emitters, &mut three, list, out, scratch,
    )
}
