// The public interface, shapes: connected components of a layer of trapezoids, and transistors from three layers, for every input.
#![tactic(auto)]

ghost use Rattle.std.specs.Prelude.{◌≡◌, length};
ghost use Rattle.records.specs.Records.{count};
ghost use Rattle.geometry.specs.Trapezoids.{trapezoid_codec};
ghost use Rattle.files.specs.Outcomes.{SmallAnswer};
ghost use Rattle.calls.specs.Components.{connected_answer, SmallComponentsAnswer};
ghost use Rattle.calls.specs.Promises.{ComponentsKept, TransistorsKept};
ghost use Rattle.calls.specs.Rows.{plate_limit};
ghost use Rattle.calls.specs.Transistors.{extracted_answer};
ghost use Rattle.boxes_code.specs.Code.{BoxedLayer, RoomForBoxes};
ghost use Rattle.loxurfa_shapes.specs.Code.{ComponentsSearched};

use boxes_code::Layer;
use calls::{Connected, Extracted};
use geometry::Refusal;

// The component numbers, by the boxes of the layer.
fn components_boxed(a: Layer, numbers: &mut [u32]) -> Connected
    requires { length numbers.old ≡ count trapezoid_codec a.words.now }
    ensures components_searched { ComponentsSearched a.entry.words.now numbers.old result numbers.new }
    ensures small { SmallComponentsAnswer (connected_answer result) }
{
    if let Err(Refusal { number, place }) = disjoint_code::first_overlap(a, 0) {
        return Connected::Refused { number, place };
    }
    let n = connectivity_code::components_boxed(a.words, a.boxes, numbers);
    Connected::Done { components: n }
}

// The same, where the boxes are yet to be worked out.
fn components_with(a: &[i32], boxes: &mut [i64], numbers: &mut [u32]) -> Connected
    requires { RoomForBoxes a.now boxes.old × (length numbers.old ≡ count trapezoid_codec a.now) }
    ensures components_searched { ComponentsSearched a.now numbers.old result numbers.new }
    ensures small { SmallComponentsAnswer (connected_answer result) }
{
    components_boxed(boxes_code::boxed(a, boxes), numbers)
}

// Each trapezoid's component number, the lowest of its component, written to `numbers`, which has an entry for each trapezoid.
pub fn components(a: &[i32], numbers: &mut [u32]) -> Connected
    ensures components_kept { ComponentsKept plate_limit a.now numbers.old result numbers.new }
    ensures small { SmallComponentsAnswer (connected_answer result) }
{
    let checked = rows_code::components_checked(calls::PLATE_LIMIT, a, numbers.len());
    if let Err(Refusal { number, place }) = checked {
        return Connected::Refused { number, place };
    }
    if numbers.len() <= boxes::FEW {
        let mut boxes = [0; boxes::FEW_WORDS];
        return components_with(a, &mut boxes, numbers);
    }
    let mut boxes = [0; boxes::MOST_WORDS];
    components_with(a, &mut boxes, numbers)
}

// Each triple of a collector, a base in it and an emitter in that, by their component numbers, written to `list`, which has any length.
// `out` and `scratch`, which is as long, are left blank.
pub fn transistors(
    collectors: &[i32],
    bases: &[i32],
    emitters: &[i32],
    list: &mut [u32],
    out: &mut [i32],
    scratch: &mut [i32],
) -> Extracted
    ensures transistors_kept { TransistorsKept plate_limit collectors.now bases.now emitters.now list.old out.old scratch.old result list.new out.new scratch.new }
    ensures small { SmallAnswer (extracted_answer result) }
{
    let checked = rows_code::transistors_checked(
        calls::PLATE_LIMIT,
        collectors,
        bases,
        emitters,
        out.len(),
        scratch.len(),
    );
    if let Err(Refusal { number, place }) = checked {
        return Extracted::Refused { number, place };
    }
    transistors_code::transistors_into(collectors, bases, emitters, list, out, scratch)
}
