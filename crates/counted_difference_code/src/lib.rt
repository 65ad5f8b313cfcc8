// The difference of two layers, counted and cleared again.
#![tactic(auto)]

ghost use Rattle.std.specs.Prelude.{◌≤◌, pos};
ghost use Rattle.records.specs.Limits.{max_records};
ghost use Rattle.records.specs.Records.{Blank};
ghost use Rattle.geometry.specs.Trapezoids.{layer_of};
ghost use Rattle.trapezoids_code.specs.Tails.{Borrowed};
ghost use Rattle.boxes_code.specs.Code.{BoxedLayer};
ghost use Rattle.remainder_code.specs.Code.{overlays_of_layer, OverlaysWithin, ScratchFor};
ghost use Rattle.counted_difference_code.specs.Code.{DifferenceCounted};

use boolean::{Folded, NoRoom};

// How many trapezoids the first layer minus the second has, and the overlays it takes. `out` and `scratch` are left blank.
pub fn difference_counted(
    first: &[i32],
    first_boxes: &[i64],
    second: &[i32],
    second_boxes: &[i64],
    out: &mut [i32],
    scratch: &mut [i32],
    room: usize,
) -> Result<Folded, NoRoom>
    requires boxed_layer { BoxedLayer first.now first_boxes.now × BoxedLayer second.now second_boxes.now }
    requires borrowed { Borrowed out.old room × (room ≤ max_records) }
    requires scratch_for { ScratchFor out.old scratch.old }
    ensures difference_counted { DifferenceCounted room (layer_of first.now) (layer_of second.now) result }
    ensures overlays_within { OverlaysWithin overlays_of_layer result }
    ensures blank { Blank (pos 0) out.new × Blank (pos 0) scratch.new }
{
    let f = difference_code::difference_into(
        0,
        first,
        first_boxes,
        second,
        second_boxes,
        out,
        scratch,
        room,
    )?;
    out[..records::MEMORY_WIDTH * f.trapezoids].fill(0);
    Ok(f)
}
