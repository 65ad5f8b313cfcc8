// Row 13: the search of layers of fit trapezoids for overlaps, by their boxes.
#![tactic(auto)]

ghost use Rattle.std.specs.Prelude.{◌≡◌, ◌+◌, ◌<◌, ◌≤◌};
ghost use Rattle.lists.specs.Lists.{All};
ghost use Rattle.records.specs.Limits.{max_records};
ghost use Rattle.records.specs.Records.{record_at, count};
ghost use Rattle.geometry.specs.Limit.{coordinate_limit};
ghost use Rattle.geometry.specs.Fitness.{FitFor};
ghost use Rattle.geometry.specs.Trapezoids.{trapezoid_codec, layer_of};
ghost use Rattle.overlay.specs.Overlaps.{overlaps, first_overlap};
ghost use Rattle.calls.specs.Rows.{both_disjoint};
ghost use Rattle.calls.specs.Transistors.{three_disjoint};
ghost use Rattle.boxes_code.specs.Code.{BoxedLayer};

use boxes_code::Layer;
use geometry::Refusal;

// Whether trapezoids number i and j of a layer overlap.
fn overlapping_at(layer: Layer, i: usize, j: usize) -> bool
    requires { (i < count trapezoid_codec layer.words.now) × (j < count trapezoid_codec layer.words.now) }
    ensures { result ≡ overlaps (record_at trapezoid_codec layer.entry.words.now i) (record_at trapezoid_codec layer.entry.words.now j) }
{
    overlaps_code::overlapping(layer.placed(i), layer.placed(j))
}

// The first overlapping pair of a layer, by its later trapezoid and then its earlier, is refused at the later one; places are numbered
// on from `start`. Where the boxes are disjoint the trapezoids do not overlap.
pub fn first_overlap(layer: Layer, start: usize) -> Result<(), Refusal>
    requires { start ≤ max_records + max_records }
    ensures { result ≡ first_overlap start (layer_of layer.entry.words.now) }
{
    let mut overlapping = None;
    'search: for later in 0..layer.count() {
        let e = layer.box_at(later);
        let mut earlier = boxes_code::next_overlapping(e, layer.boxes, 0, later);
        while earlier < later {
            if overlapping_at(layer, later, earlier) {
                overlapping = Some(later);
                break 'search;
            }
            earlier = boxes_code::next_overlapping(e, layer.boxes, earlier + 1, later);
        }
    }
    match overlapping {
        None => Ok(()),
        Some(later) => Err(Refusal {
            number: 13,
            place: start + later,
        }),
    }
}

// Of two layers, the trapezoids of the second numbered on.
pub fn both_disjoint(a: Layer, b: Layer) -> Result<(), Refusal>
    ensures { result ≡ both_disjoint a.entry.words.now b.entry.words.now }
{
    first_overlap(a, 0)?;
    first_overlap(b, a.count())
}

// Of three layers.
pub fn three_disjoint(a: Layer, b: Layer, c: Layer) -> Result<(), Refusal>
    ensures { result ≡ three_disjoint a.entry.words.now b.entry.words.now c.entry.words.now }
{
    both_disjoint(a, b)?;
    first_overlap(c, a.count() + b.count())
}
