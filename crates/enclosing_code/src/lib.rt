// Which shapes of a layer enclose which of another, where the trapezoids of each shape stand together.
#![tactic(auto)]

ghost use Rattle.std.specs.Prelude.{◌≡◌, ◌*◌, ◌<◌, ◌≤◌, length, replicate, pos};
ghost use Rattle.records.specs.Limits.{max_records};
ghost use Rattle.records.specs.Records.{count, Blank};
ghost use Rattle.geometry.specs.Trapezoids.{trapezoid_codec, layer_of};
ghost use Rattle.trapezoids_code.specs.Tails.{Borrowed};
ghost use Rattle.boxes_code.specs.Code.{BoxedLayer};
ghost use Rattle.remainder_code.specs.Code.{overlays_of_layer, ScratchFor};
ghost use Rattle.shapes_code.specs.Code.{trapezoids_between, group_at, Groups};
ghost use Rattle.enclosure_code.specs.Code.{EnclosedAs, EnclosedWithin, Marking};
ghost use Rattle.enclosing_code.specs.Code.{row_stages, row_of, family_stages, unmarked, RowMarked, FamilyMarked};

// A shape tried with each group of a layer; those that it encloses get its number.
fn enclose_each(
    number: usize,
    shape: &[i32],
    shape_boxes: &[i64],
    ends: &[u32],
    layer: &[i32],
    boxes: &[i64],
    marks: &mut [u32],
    out: &mut [i32],
    scratch: &mut [i32],
    room: usize,
) -> Option<usize>
    requires boxed_layer { BoxedLayer shape.now shape_boxes.now × (0 < count trapezoid_codec shape.now) × (number < max_records) }
    requires groups { Groups ends.now layer.now boxes.now × (length marks.old ≡ length ends.now) }
    requires borrowed { Borrowed out.old room × (room ≤ max_records) }
    requires scratch_for { ScratchFor out.old scratch.old }
    ensures enclosed_as { EnclosedAs room (row_stages (group_at ends.now (layer_of layer.now)) (layer_of shape.now) (length ends.now)) result }
    ensures enclosed_within { EnclosedWithin (max_records * overlays_of_layer) result }
    ensures marking { Marking result (RowMarked (layer_of shape.now) number (group_at ends.now (layer_of layer.now)) marks.old marks.new) }
    ensures blank { Blank (pos 0) out.new × Blank (pos 0) scratch.new }
{
    let mut made = 0;
    let mut start = 0;
    for (j, end) in ends.iter().enumerate() {
        let end = *end as usize;
        made += enclosure_code::enclose_one(
            number,
            shape,
            shape_boxes,
            layer,
            boxes,
            start,
            end,
            j,
            marks,
            out,
            scratch,
            room,
        )?;
        start = end;
    }
    Some(made)
}

// The group of a layer from `start` to before `end`, if it has trapezoids, tried with each group of another.
#[tactic(auto, using(enclosure_code::proofs::Ones::parts))]
fn enclose_row(
    number: usize,
    start: usize,
    end: usize,
    first: &[i32],
    first_boxes: &[i64],
    ends: &[u32],
    layer: &[i32],
    boxes: &[i64],
    marks: &mut [u32],
    out: &mut [i32],
    scratch: &mut [i32],
    room: usize,
) -> Option<usize>
    requires boxed_layer { BoxedLayer first.now first_boxes.now × (end ≤ count trapezoid_codec first.now) × (number < max_records) }
    requires groups { Groups ends.now layer.now boxes.now × (length marks.old ≡ length ends.now) }
    requires borrowed { Borrowed out.old room × (room ≤ max_records) }
    requires scratch_for { ScratchFor out.old scratch.old }
    ensures enclosed_as { EnclosedAs room (row_of (group_at ends.now (layer_of layer.now)) (trapezoids_between start end (layer_of first.now)) (length ends.now)) result }
    ensures enclosed_within { EnclosedWithin (max_records * overlays_of_layer) result }
    ensures marking { Marking result (RowMarked (trapezoids_between start end (layer_of first.now)) number (group_at ends.now (layer_of layer.now)) marks.old marks.new) }
    ensures blank { Blank (pos 0) out.new × Blank (pos 0) scratch.new }
{
    if end <= start {
        return Some(0);
    }
    let shape = &first[records::MEMORY_WIDTH * start..records::MEMORY_WIDTH * end];
    let shape_boxes = &first_boxes[boxes_code::WIDTH * start..boxes_code::WIDTH * end];
    enclose_each(
        number,
        shape,
        shape_boxes,
        ends,
        layer,
        boxes,
        marks,
        out,
        scratch,
        room,
    )
}

// Each group of a layer tried with each of another. `marks` gets, for each of those, the number of the last that encloses it.
pub fn enclose_all(
    first_ends: &[u32],
    first: &[i32],
    first_boxes: &[i64],
    second_ends: &[u32],
    second: &[i32],
    second_boxes: &[i64],
    marks: &mut [u32],
    out: &mut [i32],
    scratch: &mut [i32],
    room: usize,
) -> Option<usize>
    requires groups { Groups first_ends.now first.now first_boxes.now }
    requires second_groups { Groups second_ends.now second.now second_boxes.now × (length marks.old ≡ length second_ends.now) }
    requires borrowed { Borrowed out.old room × (room ≤ max_records) }
    requires scratch_for { ScratchFor out.old scratch.old }
    ensures enclosed_as { EnclosedAs room (family_stages (group_at first_ends.now (layer_of first.now)) (length first_ends.now) (group_at second_ends.now (layer_of second.now)) (length second_ends.now)) result }
    ensures enclosed_within { EnclosedWithin (max_records * (max_records * overlays_of_layer)) result }
    ensures marking { Marking result (FamilyMarked (group_at first_ends.now (layer_of first.now)) (length first_ends.now) (group_at second_ends.now (layer_of second.now)) (length second_ends.now) marks.new) }
    ensures blank { Blank (pos 0) out.new × Blank (pos 0) scratch.new }
{
    marks.fill(records::MAX_RECORDS as u32);
    let mut made = 0;
    let mut start = 0;
    for (i, end) in first_ends.iter().enumerate() {
        let end = *end as usize;
        made += enclose_row(
            i,
            start,
            end,
            first,
            first_boxes,
            second_ends,
            second,
            second_boxes,
            marks,
            out,
            scratch,
            room,
        )?;
        start = end;
    }
    Some(made)
}
