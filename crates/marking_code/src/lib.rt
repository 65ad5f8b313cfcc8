// The shapes of a layer, at the start of buffers, and those of one layer tried with those of another.
#![tactic(auto)]

ghost use Rattle.std.specs.Prelude.{◌≡◌, ◌≤◌, length, pos};
ghost use Rattle.records.specs.Limits.{max_records};
ghost use Rattle.records.specs.Records.{count, Blank};
ghost use Rattle.geometry.specs.Fitness.{FitLayer};
ghost use Rattle.geometry.specs.Trapezoids.{trapezoid_codec, layer_of};
ghost use Rattle.trapezoids_code.specs.Tails.{Borrowed};
ghost use Rattle.remainder_code.specs.Code.{ScratchFor};
ghost use Rattle.marking_code.specs.Code.{Tried, TriedWithin, RoomForShapes, ShapesAtStart};

// The shapes of a layer, with their ends, at the start of buffers, and their boxes in the place of the layer's.
pub fn put_shapes(layer: &[i32], ends: &mut [u32], words: &mut [i32], boxes: &mut [i64])
    requires { RoomForShapes layer.now words.old boxes.old × (max_records ≤ length ends.old) }
    ensures { ShapesAtStart layer.now ends.new words.new boxes.new }
{
    let n = layer.len() / records::MEMORY_WIDTH;
    let end = records::MEMORY_WIDTH * n;
    shapes_code::shapes_into(layer, &mut ends[..n], &mut words[..end], boxes);
}

// The shapes of a layer tried with those of another, both at the start of buffers: each of these gets the number of the one that encloses it.
pub fn mark_shapes(
    first: &[i32],
    first_ends: &[u32],
    first_words: &[i32],
    first_boxes: &[i64],
    second: &[i32],
    second_ends: &[u32],
    second_words: &[i32],
    second_boxes: &[i64],
    marks: &mut [u32],
    out: &mut [i32],
    scratch: &mut [i32],
    room: usize,
) -> Option<usize>
    requires fit { FitLayer first.now × FitLayer second.now }
    requires shapes_at_start { ShapesAtStart first.now first_ends.now first_words.now first_boxes.now × ShapesAtStart second.now second_ends.now second_words.now second_boxes.now × (length marks.old ≡ count trapezoid_codec second.now) }
    requires borrowed { Borrowed out.old room × (room ≤ max_records) }
    requires scratch_for { ScratchFor out.old scratch.old }
    ensures tried { Tried room (layer_of first.now) (layer_of second.now) result marks.new }
    ensures tried_within { TriedWithin result }
    ensures blank { Blank (pos 0) out.new × Blank (pos 0) scratch.new }
{
    let m = first.len() / records::MEMORY_WIDTH;
    let n = second.len() / records::MEMORY_WIDTH;
    enclosing_code::enclose_all(
        &first_ends[..m],
        &first_words[..records::MEMORY_WIDTH * m],
        first_boxes,
        &second_ends[..n],
        &second_words[..records::MEMORY_WIDTH * n],
        second_boxes,
        marks,
        out,
        scratch,
        room,
    )
}
