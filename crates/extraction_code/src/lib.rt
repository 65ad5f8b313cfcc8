// The transistors of three layers of fit trapezoids.
#![tactic(auto)]

ghost use Rattle.std.specs.Prelude.{◌≡◌, ◌≤◌, length, pos};
ghost use Rattle.records.specs.Limits.{max_records};
ghost use Rattle.records.specs.Records.{count, Blank};
ghost use Rattle.geometry.specs.Trapezoids.{trapezoid_codec, layer_of};
ghost use Rattle.trapezoids_code.specs.Tails.{Borrowed};
ghost use Rattle.boxes_code.specs.Code.{BoxedLayer};
ghost use Rattle.remainder_code.specs.Code.{ScratchFor};
ghost use Rattle.marked_layers_code.specs.Code.{BothTried, BothWithin};
ghost use Rattle.extraction_code.specs.Code.{ListedAs, ListedWithin, all_small};

use extraction::Listed;

// Whether three layers are small.
pub fn all_small(a: &[i32], b: &[i32], c: &[i32]) -> bool
    ensures { result ≡ all_small a.now b.now c.now }
{
    a.len() <= boxes_code::SMALL_WORDS && boxes_code::both_small(b, c)
}

// Bases and emitters marked. Small layers get small buffers for their shapes; a closure called with either would clear both kinds.
fn mark_layers(
    collectors: &[i32],
    collector_boxes: &mut [i64],
    bases: &[i32],
    base_boxes: &mut [i64],
    emitters: &[i32],
    emitter_boxes: &mut [i64],
    base_marks: &mut [u32],
    emitter_marks: &mut [u32],
    out: &mut [i32],
    scratch: &mut [i32],
    room: usize,
) -> Option<usize>
    requires boxed_layer { BoxedLayer collectors.now collector_boxes.old × BoxedLayer bases.now base_boxes.old × BoxedLayer emitters.now emitter_boxes.old }
    requires base_marks_len { (length base_marks.old ≡ count trapezoid_codec bases.now) × (length emitter_marks.old ≡ count trapezoid_codec emitters.now) }
    requires borrowed { Borrowed out.old room × (room ≤ max_records) }
    requires scratch_for { ScratchFor out.old scratch.old }
    ensures both_tried { BothTried room (layer_of collectors.now) (layer_of bases.now) (layer_of emitters.now) result base_marks.new emitter_marks.new }
    ensures both_within { BothWithin result }
    ensures blank { Blank (pos 0) out.new × Blank (pos 0) scratch.new }
{
    if all_small(collectors, bases, emitters) {
        let mut words = [0; boxes_code::SMALL_WORDS];
        let mut base_words = [0; boxes_code::SMALL_WORDS];
        marked_layers_code::mark_with(
            collectors,
            collector_boxes,
            bases,
            base_boxes,
            emitters,
            emitter_boxes,
            &mut words,
            &mut base_words,
            base_marks,
            emitter_marks,
            out,
            scratch,
            room,
        )
    } else {
        let mut words = [0; records::MAX_WORDS];
        let mut base_words = [0; records::MAX_WORDS];
        marked_layers_code::mark_with(
            collectors,
            collector_boxes,
            bases,
            base_boxes,
            emitters,
            emitter_boxes,
            &mut words,
            &mut base_words,
            base_marks,
            emitter_marks,
            out,
            scratch,
            room,
        )
    }
}

// The triples of collector, base and emitter, by the boxes of the layers, written to `list`, which is blank. `out` and `scratch` are
// left blank; the boxes are not kept.
#[tactic(auto, using(crate::proofs::Ways::layer_triples))]
pub fn extract_into(
    collectors: &[i32],
    collector_boxes: &mut [i64],
    bases: &[i32],
    base_boxes: &mut [i64],
    emitters: &[i32],
    emitter_boxes: &mut [i64],
    list: &mut [u32],
    out: &mut [i32],
    scratch: &mut [i32],
    room: usize,
) -> Option<Listed>
    requires boxed_layer { BoxedLayer collectors.now collector_boxes.old × BoxedLayer bases.now base_boxes.old × BoxedLayer emitters.now emitter_boxes.old × Blank 0 list.old }
    requires borrowed { Borrowed out.old room × (room ≤ max_records) }
    requires scratch_for { ScratchFor out.old scratch.old }
    ensures listed_as { ListedAs room (layer_of collectors.now) (layer_of bases.now) (layer_of emitters.now) (length list.old) result list.new }
    ensures listed_within { ListedWithin result }
    ensures blank { Blank (pos 0) out.new × Blank (pos 0) scratch.new }
{
    let mut base_marks = [0u32; records::MAX_RECORDS];
    let mut emitter_marks = [0u32; records::MAX_RECORDS];
    let base_marks = &mut base_marks[..bases.len() / records::MEMORY_WIDTH];
    let emitter_marks = &mut emitter_marks[..emitters.len() / records::MEMORY_WIDTH];
    let overlays = mark_layers(
        collectors,
        collector_boxes,
        bases,
        base_boxes,
        emitters,
        emitter_boxes,
        base_marks,
        emitter_marks,
        out,
        scratch,
        room,
    )?;
    let collector_count = collectors.len() / records::MEMORY_WIDTH;
    let triples = triples_code::list_triples(collector_count, base_marks, emitter_marks, list)?;
    Some(Listed { triples, overlays })
}
