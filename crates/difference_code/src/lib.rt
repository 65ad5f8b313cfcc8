// The difference of two layers of trapezoids.
#![tactic(auto)]

ghost use Rattle.std.specs.Prelude.{[], ◌∷◌, ◌+◌, ◌*◌, ◌-◌, ◌<◌, ◌≤◌, length, pos};
ghost use Rattle.records.specs.Limits.{memory_width, max_records};
ghost use Rattle.records.specs.Records.{record_at, count, Blank};
ghost use Rattle.geometry.specs.Trapezoids.{trapezoid_codec, layer_of};
ghost use Rattle.boxes.specs.Boxes.{Encloses};
ghost use Rattle.trapezoids_code.specs.Tails.{Borrowed};
ghost use Rattle.boxes_code.specs.Code.{BoxedAs, BoxedLayer};
ghost use Rattle.bearing_code.specs.Code.{Holding, OneBearing};
ghost use Rattle.remainder_code.specs.Code.{from, overlays_of_one, overlays_of_layer, OverlaysWithin, leading, Remaining, MinusWritten, MinusAllWritten, OneWritten, ScratchFor};
ghost use Rattle.difference_code.specs.Code.{DifferenceAdded};

use boolean::{Folded, NoRoom};
use boxes::Box;
use geometry::Placed;

// The n trapezoids that `out` holds are the remainder, which e encloses: each replaced by its parts that are not in the trapezoid with
// number i of a layer. Where its box is disjoint from e they stand.
fn reduce_at(
    e: Box,
    layer: &[i32],
    boxes: &[i64],
    i: usize,
    n: usize,
    out: &mut [i32],
    scratch: &mut [i32],
    room: usize,
) -> Result<Folded, NoRoom>
    requires boxed_layer { BoxedLayer layer.now boxes.now × (i < count trapezoid_codec layer.now) }
    requires remaining { Remaining out.old n room × Encloses e (leading out.old n) }
    requires scratch_for { ScratchFor out.old scratch.old }
    ensures minus_written { MinusWritten out.old room (leading out.old n) (record_at trapezoid_codec layer.now i) result out.new }
    ensures blank { Blank (pos 0) scratch.new }
{
    if boxes_code::boxes_disjoint(e, boxes, i) {
        return Ok(Folded {
            trapezoids: n,
            overlays: n,
        });
    }
    let b = trapezoids_code::placed_at(layer, i);
    remainder_code::reduce(b, n, out, scratch, room)
}

// The n trapezoids that `out` holds, which e encloses, minus the trapezoids of a layer from number `start` on, until none remains.
fn reduce_by_rest(
    e: Box,
    layer: &[i32],
    boxes: &[i64],
    start: usize,
    n: usize,
    out: &mut [i32],
    scratch: &mut [i32],
    room: usize,
) -> Result<Folded, NoRoom>
    requires boxed_layer { BoxedLayer layer.now boxes.now × (start ≤ count trapezoid_codec layer.now) × (room ≤ max_records) }
    requires remaining { Remaining out.old n room × Encloses e (leading out.old n) }
    requires scratch_for { ScratchFor out.old scratch.old }
    ensures minus_all_written { MinusAllWritten out.old room (leading out.old n) (from layer.now start) result out.new }
    ensures overlays_within { OverlaysWithin (max_records * (max_records - start)) result }
    ensures blank { Blank (pos 0) scratch.new }
{
    let count = layer.len() / records::MEMORY_WIDTH;
    let mut left = Folded {
        trapezoids: n,
        overlays: 0,
    };
    for i in start..count {
        if left.trapezoids == 0 {
            break;
        }
        let f = reduce_at(e, layer, boxes, i, left.trapezoids, out, scratch, room);
        left = remainder_code::more_overlays(left.overlays, f)?;
    }
    Ok(left)
}

// The rest of `one_into`: `out` is as the overlay with number j of the layer left it, with the answer f.
fn one_rest(
    a: Placed,
    e: Box,
    j: usize,
    f: Result<Folded, NoRoom>,
    layer: &[i32],
    boxes: &[i64],
    out: &mut [i32],
    scratch: &mut [i32],
    room: usize,
) -> Result<Folded, NoRoom>
    requires boxed_as { BoxedAs a e × BoxedLayer layer.now boxes.now × (j < count trapezoid_codec layer.now) × (room ≤ max_records) }
    requires minus_written { MinusWritten out.old room (a.shape ∷ []) (record_at trapezoid_codec layer.now j) f out.old × (memory_width * room ≤ length out.old) }
    requires scratch_for { ScratchFor out.old scratch.old }
    ensures one_written { OneWritten out.old room a.shape (from layer.now j) result out.new }
    ensures overlays_within { OverlaysWithin (max_records * (max_records - j) + 1) result }
    ensures blank { Blank (pos 0) scratch.new }
{
    let first = f?;
    let g = reduce_by_rest(e, layer, boxes, j + 1, first.trapezoids, out, scratch, room);
    remainder_code::more_overlays(first.overlays, g)
}

// One trapezoid minus each trapezoid of a layer in turn, and what remains of it added.
fn one_in_turn(
    a: Placed,
    e: Box,
    layer: &[i32],
    boxes: &[i64],
    out: &mut [i32],
    scratch: &mut [i32],
    room: usize,
) -> Result<Folded, NoRoom>
    requires boxed_as { BoxedAs a e × BoxedLayer layer.now boxes.now × Borrowed out.old room × (room ≤ max_records) }
    requires scratch_for { ScratchFor out.old scratch.old }
    ensures one_written { OneWritten out.old room a.shape (layer_of layer.now) result out.new }
    ensures overlays_within { OverlaysWithin overlays_of_one result }
    ensures blank { Blank (pos 0) scratch.new }
{
    let count = layer.len() / records::MEMORY_WIDTH;
    if count == 0 {
        return remainder_code::add_whole(a, out, room);
    }
    let b = trapezoids_code::placed_at(layer, 0);
    let f = remainder_code::first_into(a, b, out, room);
    one_rest(a, e, 0, f, layer, boxes, out, scratch, room)
}

// One trapezoid minus a layer, and what remains of it added. Trapezoids that do not overlap it leave
// it whole: with any room, those before the first that does are counted and passed over.
fn one_into(
    a: Placed,
    e: Box,
    layer: &[i32],
    boxes: &[i64],
    out: &mut [i32],
    scratch: &mut [i32],
    room: usize,
) -> Result<Folded, NoRoom>
    requires boxed_as { BoxedAs a e × BoxedLayer layer.now boxes.now × Borrowed out.old room × (room ≤ max_records) }
    requires scratch_for { ScratchFor out.old scratch.old }
    ensures one_written { OneWritten out.old room a.shape (layer_of layer.now) result out.new }
    ensures overlays_within { OverlaysWithin overlays_of_one result }
    ensures blank { Blank (pos 0) scratch.new }
{
    if room == 0 {
        return one_in_turn(a, e, layer, boxes, out, scratch, room);
    }
    let Some(v) = remainder_code::first_overlapping(a, e, layer, boxes) else {
        let f = remainder_code::add_whole(a, out, room);
        return remainder_code::more_overlays(layer.len() / records::MEMORY_WIDTH, f);
    };
    let f = remainder_code::cut_into(a, v.placed, out, room);
    let g = one_rest(a, e, v.before, f, layer, boxes, out, scratch, room);
    remainder_code::more_overlays(v.before, g)
}

// The same of a trapezoid with this set of source layers, which what remains of it keeps.
pub fn one_bearing(
    a: Placed,
    e: Box,
    layer: &[i32],
    boxes: &[i64],
    out: &mut [i32],
    scratch: &mut [i32],
    room: usize,
    sources: i32,
) -> Result<Folded, NoRoom>
    requires boxed_as { BoxedAs a e × BoxedLayer layer.now boxes.now × Borrowed out.old room × (room ≤ max_records) }
    requires scratch_for { ScratchFor out.old scratch.old }
    ensures one_bearing { OneBearing out.old room sources a.shape (layer_of layer.now) result out.new }
    ensures overlays_within { OverlaysWithin overlays_of_one result }
    ensures blank { Blank (pos 0) scratch.new }
{
    let f = one_into(a, e, layer, boxes, out, scratch, room);
    bearing_code::bear(f, sources, out);
    f
}

// The trapezoids of the first layer, each minus the second layer, with its set, added past the `start` trapezoids that `out` holds.
pub fn difference_into(
    start: usize,
    first: &[i32],
    first_boxes: &[i64],
    second: &[i32],
    second_boxes: &[i64],
    out: &mut [i32],
    scratch: &mut [i32],
    room: usize,
) -> Result<Folded, NoRoom>
    requires boxed_layer { BoxedLayer first.now first_boxes.now × BoxedLayer second.now second_boxes.now }
    requires holding { Holding out.old start room × (room ≤ max_records) }
    requires scratch_for { ScratchFor out.old scratch.old }
    ensures difference_added { DifferenceAdded out.old room start first.now second.now result out.new }
    ensures overlays_within { OverlaysWithin overlays_of_layer result }
    ensures blank { Blank (pos 0) scratch.new }
{
    let n = first.len() / records::MEMORY_WIDTH;
    let mut k = start;
    let mut made = 0;
    for i in 0..n {
        let a = trapezoids_code::placed_at(first, i);
        let e = boxes_code::load_box(first_boxes, i);
        let sources = sources_code::sources_at(first, i);
        let free = records::MEMORY_WIDTH * k;
        let f = one_bearing(
            a,
            e,
            second,
            second_boxes,
            &mut out[free..],
            &mut scratch[free..],
            room - k,
            sources,
        );
        match f {
            Ok(f) => {
                k += f.trapezoids;
                made += f.overlays;
            }
            Err(r) => {
                out.fill(0);
                return Err(NoRoom {
                    overlays: made + r.overlays,
                });
            }
        }
    }
    Ok(Folded {
        trapezoids: k,
        overlays: made,
    })
}
