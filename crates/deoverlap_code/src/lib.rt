// A layer of trapezoids without overlaps.
#![tactic(auto)]

ghost use Rattle.std.specs.Prelude.{◌≡◌, ◌*◌, ◌-◌, ◌≤◌, length, pos};
ghost use Rattle.records.specs.Limits.{max_records};
ghost use Rattle.records.specs.Records.{Blank};
ghost use Rattle.geometry.specs.Fitness.{FitLayer};
ghost use Rattle.trapezoids_code.specs.Tails.{Borrowed};
ghost use Rattle.boxes_code.specs.Code.{box_width, BoxedAs, BoxedLayer};
ghost use Rattle.remainder_code.specs.Code.{front, rest, leading, overlays_of_one, max_overlays, OverlaysWithin, ScratchFor};
ghost use Rattle.bearing_code.specs.Code.{OneBearing};
ghost use Rattle.deoverlap_code.specs.Code.{BlankPast, DeoverlappedWritten};

use boolean::{Folded, NoRoom};
use boxes::Box;
use geometry::Placed;

// A trapezoid with its set of source layers, minus the k trapezoids that `out` holds, and what remains of it added past them.
pub fn one_bearing_by_front(
    a: Placed,
    e: Box,
    boxes: &[i64],
    k: usize,
    out: &mut [i32],
    scratch: &mut [i32],
    room: usize,
    sources: i32,
) -> Result<Folded, NoRoom>
    requires boxed_as { BoxedAs a e × BoxedLayer (front out.old k) boxes.now × BlankPast out.old k room × (room ≤ max_records) }
    requires scratch_for { ScratchFor out.old scratch.old }
    ensures one_bearing { OneBearing (rest out.old k) (room - k) sources a.shape (leading out.old k) result (rest out.new k) }
    ensures first_unchanged { front out.new k ≡ front out.old k }
    ensures overlays_within { OverlaysWithin overlays_of_one result }
    ensures blank { Blank (pos 0) scratch.new }
{
    let end = records::MEMORY_WIDTH * k;
    let (done, tail) = out.split_at_mut(end);
    difference_code::one_bearing(
        a,
        e,
        done,
        boxes,
        tail,
        &mut scratch[end..],
        room - k,
        sources,
    )
}

// Each trapezoid of a layer in turn, minus all that the result already holds, is added with its set. `boxes` takes the boxes of the result.
fn deoverlap_with(
    layer: &[i32],
    boxes: &mut [i64],
    out: &mut [i32],
    scratch: &mut [i32],
    room: usize,
) -> Result<Folded, NoRoom>
    requires fit_layer { FitLayer layer.now × (box_width * room ≤ length boxes.old) }
    requires borrowed { Borrowed out.old room × (room ≤ max_records) }
    requires scratch_for { ScratchFor out.old scratch.old }
    ensures deoverlapped_written { DeoverlappedWritten out.old room layer.now result out.new }
    ensures overlays_within { OverlaysWithin max_overlays result }
    ensures blank { Blank (pos 0) scratch.new }
{
    let count = layer.len() / records::MEMORY_WIDTH;
    let mut k = 0;
    let mut sum = 0;
    for i in 0..count {
        let a = trapezoids_code::placed_at(layer, i);
        let e = boxes_code::box_of(a);
        let sources = sources_code::sources_at(layer, i);
        let f = one_bearing_by_front(a, e, boxes, k, out, scratch, room, sources);
        match f {
            Ok(f) => {
                let end = records::MEMORY_WIDTH * (k + f.trapezoids);
                boxes_code::extend_boxes(&out[..end], boxes, k);
                k += f.trapezoids;
                sum += f.overlays;
            }
            Err(r) => {
                out.fill(0);
                return Err(NoRoom {
                    overlays: sum + r.overlays,
                });
            }
        }
    }
    Ok(Folded {
        trapezoids: k,
        overlays: sum,
    })
}

// A layer without overlaps.
pub fn deoverlap_into(
    layer: &[i32],
    out: &mut [i32],
    scratch: &mut [i32],
    room: usize,
) -> Result<Folded, NoRoom>
    requires fit_layer { FitLayer layer.now }
    requires borrowed { Borrowed out.old room × (room ≤ max_records) }
    requires scratch_for { ScratchFor out.old scratch.old }
    ensures deoverlapped_written { DeoverlappedWritten out.old room layer.now result out.new }
    ensures overlays_within { OverlaysWithin max_overlays result }
    ensures blank { Blank (pos 0) scratch.new }
{
    if room <= boxes::FEW {
        let mut boxes = [0; boxes::FEW_WORDS];
        deoverlap_with(layer, &mut boxes, out, scratch, room)
    } else {
        let mut boxes = [0; boxes::MOST_WORDS];
        deoverlap_with(layer, &mut boxes, out, scratch, room)
    }
}
