// The set operations by code, for layers of fit trapezoids.
#![tactic(auto)]

ghost use Rattle.std.specs.Prelude.{◌<◌, ◌≤◌, pos};
ghost use Rattle.records.specs.Limits.{max_records};
ghost use Rattle.records.specs.Records.{Blank};
ghost use Rattle.boolean.specs.Operations.{union, symmetric_difference, code_at};
ghost use Rattle.trapezoids_code.specs.Tails.{Borrowed};
ghost use Rattle.boxes_code.specs.Code.{BoxedLayer};
ghost use Rattle.remainder_code.specs.Code.{overlays_of_layer, max_overlays, OverlaysWithin, ScratchFor};
ghost use Rattle.boolean_code.specs.Code.{ResultWritten};

use boolean::{Folded, NoRoom};

// The first layer, and then the second minus the first.
fn union_into(
    first: &[i32],
    first_boxes: &[i64],
    second: &[i32],
    second_boxes: &[i64],
    out: &mut [i32],
    scratch: &mut [i32],
    room: usize,
) -> Result<Folded, NoRoom>
    requires boxed_layer { BoxedLayer first.now first_boxes.now × BoxedLayer second.now second_boxes.now }
    requires borrowed { Borrowed out.old room × (room ≤ max_records) }
    requires scratch_for { ScratchFor out.old scratch.old }
    ensures result_written { ResultWritten union out.old room first.now second.now result out.new }
    ensures overlays_within { OverlaysWithin overlays_of_layer result }
    ensures blank { Blank (pos 0) scratch.new }
{
    let n = first.len() / records::MEMORY_WIDTH;
    if room < n {
        return Err(NoRoom { overlays: 0 });
    }
    let end = records::MEMORY_WIDTH * n;
    records_code::copy(&first[..end], &mut out[..end]);
    difference_code::difference_into(
        n,
        second,
        second_boxes,
        first,
        first_boxes,
        out,
        scratch,
        room,
    )
}

// The first layer minus the second, and then the second minus the first.
fn symmetric_difference_into(
    first: &[i32],
    first_boxes: &[i64],
    second: &[i32],
    second_boxes: &[i64],
    out: &mut [i32],
    scratch: &mut [i32],
    room: usize,
) -> Result<Folded, NoRoom>
    requires boxed_layer { BoxedLayer first.now first_boxes.now × BoxedLayer second.now second_boxes.now }
    requires borrowed { Borrowed out.old room × (room ≤ max_records) }
    requires scratch_for { ScratchFor out.old scratch.old }
    ensures result_written { ResultWritten symmetric_difference out.old room first.now second.now result out.new }
    ensures overlays_within { OverlaysWithin max_overlays result }
    ensures blank { Blank (pos 0) scratch.new }
{
    let f = difference_code::difference_into(
        0,
        first,
        first_boxes,
        second,
        second_boxes,
        out,
        scratch,
        room,
    )?;
    let g = difference_code::difference_into(
        f.trapezoids,
        second,
        second_boxes,
        first,
        first_boxes,
        out,
        scratch,
        room,
    );
    remainder_code::more_overlays(f.overlays, g)
}

// The set operation with the code's number, by the boxes of both layers.
pub fn combine_boxed(
    code: u32,
    first: &[i32],
    first_boxes: &[i64],
    second: &[i32],
    second_boxes: &[i64],
    out: &mut [i32],
    scratch: &mut [i32],
    room: usize,
) -> Result<Folded, NoRoom>
    requires code_bound { (code < 5) × BoxedLayer first.now first_boxes.now × BoxedLayer second.now second_boxes.now }
    requires borrowed { Borrowed out.old room × (room ≤ max_records) }
    requires scratch_for { ScratchFor out.old scratch.old }
    ensures result_written { ResultWritten (code_at code) out.old room first.now second.now result out.new }
    ensures overlays_within { OverlaysWithin max_overlays result }
    ensures blank { Blank (pos 0) scratch.new }
{
    match code {
        0 => union_into(first, first_boxes, second, second_boxes, out, scratch, room),
        1 => intersection_code::intersection_into(
            first,
            first_boxes,
            second,
            second_boxes,
            out,
            room,
        ),
        2 => difference_code::difference_into(
            0,
            first,
            first_boxes,
            second,
            second_boxes,
            out,
            scratch,
            room,
        ),
        3 => difference_code::difference_into(
            0,
            second,
            second_boxes,
            first,
            first_boxes,
            out,
            scratch,
            room,
        ),
        _ => symmetric_difference_into(
            first,
            first_boxes,
            second,
            second_boxes,
            out,
            scratch,
            room,
        ),
    }
}
