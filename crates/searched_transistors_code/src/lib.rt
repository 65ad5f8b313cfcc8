// The transistors of three layers of fit trapezoids by their boxes: first the search for overlaps, and then the extraction.
#![tactic(auto)]

ghost use Rattle.std.specs.Prelude.{◌≡◌, true, length};
ghost use Rattle.files.specs.Outcomes.{SmallAnswer};
ghost use Rattle.calls.specs.Rows.{buffers_sized};
ghost use Rattle.calls.specs.Transistors.{extracted_answer};
ghost use Rattle.boxes_code.specs.Code.{BoxedLayer};
ghost use Rattle.searched_transistors_code.specs.Code.{TransistorsSearched};

use boxes_code::Layer;
use calls::Extracted;
use extraction::Listed;
use geometry::Refusal;

// The transistors of three layers, by their boxes. The boxes are not kept.
pub fn transistors_boxed(
    collectors: &[i32],
    collector_boxes: &mut [i64],
    bases: &[i32],
    base_boxes: &mut [i64],
    emitters: &[i32],
    emitter_boxes: &mut [i64],
    list: &mut [u32],
    out: &mut [i32],
    scratch: &mut [i32],
) -> Extracted
    requires boxed_layer { BoxedLayer collectors.now collector_boxes.old × BoxedLayer bases.now base_boxes.old × BoxedLayer emitters.now emitter_boxes.old }
    requires scratch_value { buffers_sized (length out.old) (length scratch.old) ≡ true }
    ensures transistors_searched { TransistorsSearched collectors.now bases.now emitters.now list.old out.old scratch.old result list.new out.new scratch.new }
    ensures small { SmallAnswer (extracted_answer result) }
{
    let checked = disjoint_code::three_disjoint(
        Layer::new(collectors, collector_boxes),
        Layer::new(bases, base_boxes),
        Layer::new(emitters, emitter_boxes),
    );
    if let Err(Refusal { number, place }) = checked {
        return Extracted::Refused { number, place };
    }
    let room = out.len() / records::MEMORY_WIDTH;
    list.fill(0);
    records_code::clear_both(out, scratch);
    match extraction_code::extract_into(
        collectors,
        collector_boxes,
        bases,
        base_boxes,
        emitters,
        emitter_boxes,
        list,
        out,
        scratch,
        room,
    ) {
        None => Extracted::Refused {
            number: 12,
            place: 0,
        },
        Some(Listed { triples, overlays }) => Extracted::Done { triples, overlays },
    }
}
