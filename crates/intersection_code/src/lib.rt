// The intersection of two layers of trapezoids.
#![tactic(auto)]

ghost use Rattle.trapezoids_code.specs.Tails.{Borrowed};
ghost use Rattle.boxes_code.specs.Code.{BoxedAs, BoxedLayer};
ghost use Rattle.remainder_code.specs.Code.{overlays_of_layer, OverlaysWithin};
ghost use Rattle.intersection_code.specs.Code.{CommonWritten, IntersectionWritten};

use boolean::{Folded, NoRoom};
use boxes::Box;
use geometry::Placed;

// The parts common to a, which has this set of source layers, and each trapezoid of the layer, in order, with both sets joined.
fn common_into(
    a: Placed,
    e: Box,
    layer: &[i32],
    boxes: &[i64],
    out: &mut [i32],
    room: usize,
    sources: i32,
) -> Result<Folded, NoRoom>
    requires { BoxedAs a e × BoxedLayer layer.now boxes.now × Borrowed out.old room }
    ensures { CommonWritten out.old room sources a.shape layer.now result out.new }
{
    let n = layer.len() / records::MEMORY_WIDTH;
    let mut k = 0;
    for i in 0..n {
        if !boxes_code::boxes_disjoint(e, boxes, i) {
            let b = trapezoids_code::placed_at(layer, i);
            let of_b = sources_code::sources_at(layer, i);
            let both = sources_code::joined(sources, of_b);
            let tail = &mut out[records::MEMORY_WIDTH * k..];
            let Some(parts) = bearing_code::common_parts(a, b, both, tail, room - k) else {
                out.fill(0);
                return Err(NoRoom { overlays: i + 1 });
            };
            k += parts;
        }
    }
    Ok(Folded {
        trapezoids: k,
        overlays: n,
    })
}

// The parts common to each trapezoid of the first layer, in order, and each of the second, with both sets joined.
pub fn intersection_into(
    first: &[i32],
    first_boxes: &[i64],
    second: &[i32],
    second_boxes: &[i64],
    out: &mut [i32],
    room: usize,
) -> Result<Folded, NoRoom>
    requires { BoxedLayer first.now first_boxes.now × BoxedLayer second.now second_boxes.now × Borrowed out.old room }
    ensures intersection_written { IntersectionWritten out.old room first.now second.now result out.new }
    ensures overlays_within { OverlaysWithin overlays_of_layer result }
{
    let n = first.len() / records::MEMORY_WIDTH;
    let mut k = 0;
    let mut overlays = 0;
    for i in 0..n {
        let a = trapezoids_code::placed_at(first, i);
        let e = boxes_code::load_box(first_boxes, i);
        let sources = sources_code::sources_at(first, i);
        let tail = &mut out[records::MEMORY_WIDTH * k..];
        match common_into(a, e, second, second_boxes, tail, room - k, sources) {
            Ok(f) => {
                k += f.trapezoids;
                overlays += f.overlays;
            }
            Err(r) => {
                out.fill(0);
                return Err(NoRoom {
                    overlays: overlays + r.overlays,
                });
            }
        }
    }
    Ok(Folded {
        trapezoids: k,
        overlays,
    })
}
