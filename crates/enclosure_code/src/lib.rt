// Whether a shape of a layer encloses another.
#![tactic(auto)]

ghost use Rattle.std.specs.Prelude.{◌≡◌, ◌*◌, ◌<◌, ◌≤◌, length, pos};
ghost use Rattle.records.specs.Limits.{max_records};
ghost use Rattle.records.specs.Records.{count, Blank};
ghost use Rattle.geometry.specs.Trapezoids.{trapezoid_codec, layer_of};
ghost use Rattle.trapezoids_code.specs.Tails.{Borrowed};
ghost use Rattle.boxes_code.specs.Code.{box_width, BoxedLayer};
ghost use Rattle.remainder_code.specs.Code.{overlays_of_layer, ScratchFor};
ghost use Rattle.shapes_code.specs.Code.{trapezoids_between};
ghost use Rattle.enclosure_code.specs.Code.{disjoint_from, all_disjoint, EnclosureIs, EnclosureWithin, EnclosedAs, EnclosedWithin, Marking, stages_of, some_encloses, marked_if};

use boolean::Folded;
use boxes::Box;
use extraction::Enclosure;

// Whether a box is disjoint from each of the first n of a slice.
fn disjoint_from(e: Box, boxes: &[i64], n: usize) -> bool
    requires { box_width * n ≤ length boxes.now }
    ensures { result ≡ disjoint_from e boxes.now n }
{
    (0..n).all(|j| boxes_code::boxes_disjoint(e, boxes, j))
}

// Whether each of m boxes is disjoint from each of n others.
fn all_disjoint(first_boxes: &[i64], m: usize, second_boxes: &[i64], n: usize) -> bool
    requires { (box_width * m ≤ length first_boxes.now) × (box_width * n ≤ length second_boxes.now) }
    ensures { result ≡ all_disjoint first_boxes.now m second_boxes.now n }
{
    (0..m).all(|i| disjoint_from(boxes_code::load_box(first_boxes, i), second_boxes, n))
}

// Whether a shape encloses another, both with trapezoids, by the difference of the other minus it. Where all boxes are disjoint nothing is run:
// the other is left whole, after an overlay for each two trapezoids. `out` and `scratch` are left blank.
#[tactic(auto, using(crate::proofs::Answers::encloses_none))]
fn enclosure(
    shape: &[i32],
    shape_boxes: &[i64],
    other: &[i32],
    other_boxes: &[i64],
    out: &mut [i32],
    scratch: &mut [i32],
    room: usize,
) -> Option<Enclosure>
    requires boxed_layer { BoxedLayer shape.now shape_boxes.now × BoxedLayer other.now other_boxes.now }
    requires shape_nonzero { (0 < count trapezoid_codec shape.now) × (0 < count trapezoid_codec other.now) }
    requires borrowed { Borrowed out.old room × (room ≤ max_records) }
    requires scratch_for { ScratchFor out.old scratch.old }
    ensures enclosure_is { EnclosureIs room (layer_of shape.now) (layer_of other.now) result }
    ensures enclosure_within { EnclosureWithin overlays_of_layer result }
    ensures blank { Blank (pos 0) out.new × Blank (pos 0) scratch.new }
{
    let m = other.len() / records::MEMORY_WIDTH;
    let n = shape.len() / records::MEMORY_WIDTH;
    if all_disjoint(other_boxes, m, shape_boxes, n) {
        if room < m {
            return None;
        }
        return Some(Enclosure {
            encloses: false,
            overlays: m * n,
        });
    }
    let Folded {
        trapezoids,
        overlays,
    } = counted_difference_code::difference_counted(
        other,
        other_boxes,
        shape,
        shape_boxes,
        out,
        scratch,
        room,
    ).ok()?;
    Some(Enclosure {
        encloses: trapezoids == 0,
        overlays,
    })
}

// A shape tried with the group of a layer from `start` to before `end`, which has the number j. If it encloses it, that gets its number.
#[tactic(auto, using(crate::proofs::Ones::parts))]
pub fn enclose_one(
    number: usize,
    shape: &[i32],
    shape_boxes: &[i64],
    layer: &[i32],
    boxes: &[i64],
    start: usize,
    end: usize,
    j: usize,
    marks: &mut [u32],
    out: &mut [i32],
    scratch: &mut [i32],
    room: usize,
) -> Option<usize>
    requires boxed_layer { BoxedLayer shape.now shape_boxes.now × (0 < count trapezoid_codec shape.now) × (number < max_records) × (j < length marks.old) }
    requires part_within { BoxedLayer layer.now boxes.now × (end ≤ count trapezoid_codec layer.now) }
    requires borrowed { Borrowed out.old room × (room ≤ max_records) }
    requires scratch_for { ScratchFor out.old scratch.old }
    ensures enclosed_as { EnclosedAs room (stages_of (layer_of shape.now) (trapezoids_between start end (layer_of layer.now))) result }
    ensures enclosed_within { EnclosedWithin overlays_of_layer result }
    ensures marking { Marking result (marks.new ≡ marked_if (some_encloses (layer_of shape.now) (trapezoids_between start end (layer_of layer.now))) marks.old j number) }
    ensures blank { Blank (pos 0) out.new × Blank (pos 0) scratch.new }
{
    if end <= start {
        return Some(0);
    }
    let other = &layer[records::MEMORY_WIDTH * start..records::MEMORY_WIDTH * end];
    let other_boxes = &boxes[boxes_code::WIDTH * start..boxes_code::WIDTH * end];
    let Enclosure { encloses, overlays } = enclosure(
        shape,
        shape_boxes,
        other,
        other_boxes,
        out,
        scratch,
        room,
    )?;
    if encloses {
        marks[j] = number as u32;
    }
    Some(overlays)
}
