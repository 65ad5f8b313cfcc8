// Which collector encloses each base, and which base each emitter.
#![tactic(auto)]

ghost use Rattle.std.specs.Prelude.{◌≡◌, ◌≤◌, length, pos};
ghost use Rattle.records.specs.Limits.{max_records};
ghost use Rattle.records.specs.Records.{count, Blank};
ghost use Rattle.geometry.specs.Trapezoids.{trapezoid_codec, layer_of};
ghost use Rattle.trapezoids_code.specs.Tails.{Borrowed};
ghost use Rattle.remainder_code.specs.Code.{ScratchFor};
ghost use Rattle.marking_code.specs.Code.{RoomForShapes};
ghost use Rattle.marked_layers_code.specs.Code.{BothTried, BothWithin};

// Bases and emitters marked, by the shapes of the three layers. The shapes of the bases stay in `base_words`, those of the collectors and then
// those of the emitters stand in `words`.
#[tactic(auto, using(crate::proofs::Both::no_room_left, crate::proofs::Both::no_room_right, crate::proofs::Both::enough_both))]
pub fn mark_with(
    collectors: &[i32],
    collector_boxes: &mut [i64],
    bases: &[i32],
    base_boxes: &mut [i64],
    emitters: &[i32],
    emitter_boxes: &mut [i64],
    words: &mut [i32],
    base_words: &mut [i32],
    base_marks: &mut [u32],
    emitter_marks: &mut [u32],
    out: &mut [i32],
    scratch: &mut [i32],
    room: usize,
) -> Option<usize>
    requires room_for_shapes { RoomForShapes collectors.now words.old collector_boxes.old × RoomForShapes emitters.now words.old emitter_boxes.old × RoomForShapes bases.now base_words.old base_boxes.old }
    requires base_marks_len { (length base_marks.old ≡ count trapezoid_codec bases.now) × (length emitter_marks.old ≡ count trapezoid_codec emitters.now) }
    requires borrowed { Borrowed out.old room × (room ≤ max_records) }
    requires scratch_for { ScratchFor out.old scratch.old }
    ensures both_tried { BothTried room (layer_of collectors.now) (layer_of bases.now) (layer_of emitters.now) result base_marks.new emitter_marks.new }
    ensures both_within { BothWithin result }
    ensures blank { Blank (pos 0) out.new × Blank (pos 0) scratch.new }
{
    let mut base_ends = [0u32; records::MAX_RECORDS];
    let mut ends = [0u32; records::MAX_RECORDS];
    marking_code::put_shapes(bases, &mut base_ends, base_words, base_boxes);
    marking_code::put_shapes(collectors, &mut ends, words, collector_boxes);
    let made = marking_code::mark_shapes(
        collectors,
        &ends,
        words,
        collector_boxes,
        bases,
        &base_ends,
        base_words,
        base_boxes,
        base_marks,
        out,
        scratch,
        room,
    )?;
    marking_code::put_shapes(emitters, &mut ends, words, emitter_boxes);
    let more = marking_code::mark_shapes(
        bases,
        &base_ends,
        base_words,
        base_boxes,
        emitters,
        &ends,
        words,
        emitter_boxes,
        emitter_marks,
        out,
        scratch,
        room,
    )?;
    Some(made + more)
}
