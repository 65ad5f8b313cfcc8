// The equality test, for layers of fit trapezoids.
#![tactic(auto)]

ghost use Rattle.std.specs.Prelude.{◌≤◌, pos};
ghost use Rattle.records.specs.Limits.{max_records};
ghost use Rattle.records.specs.Records.{Blank};
ghost use Rattle.geometry.specs.Trapezoids.{layer_of};
ghost use Rattle.trapezoids_code.specs.Tails.{Borrowed};
ghost use Rattle.boxes_code.specs.Code.{BoxedLayer};
ghost use Rattle.remainder_code.specs.Code.{max_overlays, ScratchFor};
ghost use Rattle.equality_code.specs.Code.{ComparedAs, ComparedWithin, NothingLeft};

use boolean::Compared;

// The equality test where nothing is left of the first layer minus the second, which took `made` overlays.
fn second_difference(
    made: usize,
    first: &[i32],
    first_boxes: &[i64],
    second: &[i32],
    second_boxes: &[i64],
    out: &mut [i32],
    scratch: &mut [i32],
    room: usize,
) -> Compared
    requires boxed_layer { BoxedLayer first.now first_boxes.now × BoxedLayer second.now second_boxes.now }
    requires borrowed { Borrowed out.old room × (room ≤ max_records) }
    requires scratch_for { ScratchFor out.old scratch.old }
    requires nothing_left { NothingLeft room (layer_of first.now) (layer_of second.now) made }
    ensures compared_as { ComparedAs room (layer_of first.now) (layer_of second.now) result }
    ensures compared_within { ComparedWithin max_overlays result }
    ensures blank { Blank (pos 0) out.new × Blank (pos 0) scratch.new }
{
    let f = counted_difference_code::difference_counted(
        second,
        second_boxes,
        first,
        first_boxes,
        out,
        scratch,
        room,
    );
    match f {
        Err(r) => Compared::NoRoom(made + r.overlays),
        Ok(f) if f.trapezoids == 0 => Compared::Same(made + f.overlays),
        Ok(f) => Compared::Differs {
            operand: 1,
            overlays: made + f.overlays,
        },
    }
}

// Whether no point lies in one of the layers and not in the other, by the boxes of both.
pub fn equal_boxed(
    first: &[i32],
    first_boxes: &[i64],
    second: &[i32],
    second_boxes: &[i64],
    out: &mut [i32],
    scratch: &mut [i32],
    room: usize,
) -> Compared
    requires boxed_layer { BoxedLayer first.now first_boxes.now × BoxedLayer second.now second_boxes.now }
    requires borrowed { Borrowed out.old room × (room ≤ max_records) }
    requires scratch_for { ScratchFor out.old scratch.old }
    ensures compared_as { ComparedAs room (layer_of first.now) (layer_of second.now) result }
    ensures compared_within { ComparedWithin max_overlays result }
    ensures blank { Blank (pos 0) out.new × Blank (pos 0) scratch.new }
{
    let f = counted_difference_code::difference_counted(
        first,
        first_boxes,
        second,
        second_boxes,
        out,
        scratch,
        room,
    );
    match f {
        Err(r) => Compared::NoRoom(r.overlays),
        Ok(f) if f.trapezoids == 0 => second_difference(
            f.overlays,
            first,
            first_boxes,
            second,
            second_boxes,
            out,
            scratch,
            room,
        ),
        Ok(f) => Compared::Differs {
            operand: 0,
            overlays: f.overlays,
        },
    }
}
