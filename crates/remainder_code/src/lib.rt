// What remains of trapezoids minus others, with room for so many.
#![tactic(auto)]

ghost use Rattle.std.specs.Prelude.{◌≡◌, true, [], ◌∷◌, ◌++◌, ◌+◌, ◌*◌, ◌-◌, ◌<◌, ◌≤◌, length, take, drop, replicate, pos};
ghost use Rattle.lists.specs.Lists.{All};
ghost use Rattle.records.specs.Limits.{memory_width};
ghost use Rattle.records.specs.Records.{count, Blank};
ghost use Rattle.geometry.specs.Limit.{coordinate_limit};
ghost use Rattle.geometry.specs.Fitness.{FitFor};
ghost use Rattle.geometry.specs.Trapezoids.{trapezoid_codec, layer_of};
ghost use Rattle.overlay.specs.Overlaps.{overlaps};
ghost use Rattle.boolean.specs.Space.{addition};
ghost use Rattle.trapezoids_code.specs.Placed.{PlacedAs, Pair};
ghost use Rattle.trapezoids_code.specs.Tails.{Borrowed};
ghost use Rattle.boxes_code.specs.Code.{BoxedAs, BoxedLayer};
ghost use Rattle.remainder_code.specs.Code.{max_overlays, with_overlays, OverlaysWithin, leading, Remaining, FoldedAs, FoundAs, FirstPlaced, MinusWritten, ScratchFor, once as once_of};

use boolean::{Folded, NoRoom};
use boxes::{Box, Found};
use geometry::Placed;

// Each trapezoid of the remainder, in order, replaced by its parts that are not in b. Those not yet reached count against the room. The first
// overlaps b.
pub fn minus_into(
    remainder: &[i32],
    first: Placed,
    b: Placed,
    out: &mut [i32],
    room: usize,
) -> Result<Folded, NoRoom>
    requires all { All (FitFor coordinate_limit) (layer_of remainder.now) × (count trapezoid_codec remainder.now ≤ room + 1) }
    requires placed_as { PlacedAs b.shape b × Borrowed out.old room }
    requires first_placed { FirstPlaced (λ t. overlaps t b.shape) remainder.now (count trapezoid_codec remainder.now) first }
    ensures { MinusWritten out.old room (layer_of remainder.now) b.shape result out.new }
{
    let n = remainder.len() / records::MEMORY_WIDTH;
    let Some(mut k) = overlay_code::overlapping_into(first, b, 1, out, room - (n - 1)) else {
        out.fill(0);
        return Err(NoRoom { overlays: 1 });
    };
    for i in 1..n {
        let a = trapezoids_code::placed_at(remainder, i);
        let free = room - k - (n - i - 1);
        let tail = &mut out[records::MEMORY_WIDTH * k..];
        let Some(parts) = overlay_code::overlay_into(a, b, 1, tail, free) else {
            out.fill(0);
            return Err(NoRoom { overlays: i + 1 });
        };
        k += parts;
    }
    Ok(Folded {
        trapezoids: k,
        overlays: n,
    })
}

// The first n records of `out` are moved to `scratch`.
fn move_into(out: &mut [i32], scratch: &mut [i32], n: usize)
    requires { (memory_width * n ≤ length out.old) × (memory_width * n ≤ length scratch.old) }
    ensures out_after { out.new ≡ replicate (memory_width * n) (pos 0) ++ drop (memory_width * n) out.old }
    ensures scratch_after { scratch.new ≡ take (memory_width * n) out.old ++ drop (memory_width * n) scratch.old }
{
    let end = records::MEMORY_WIDTH * n;
    records_code::copy(&out[..end], &mut scratch[..end]);
    out[..end].fill(0);
}

// The n trapezoids that `out` holds are the remainder: each replaced by its parts that are not in b. The first overlaps b.
fn replace(
    first: Placed,
    b: Placed,
    n: usize,
    out: &mut [i32],
    scratch: &mut [i32],
    room: usize,
) -> Result<Folded, NoRoom>
    requires placed_as { PlacedAs b.shape b × Remaining out.old n room }
    requires scratch_for { ScratchFor out.old scratch.old }
    requires first_placed { FirstPlaced (λ t. overlaps t b.shape) out.old n first }
    ensures minus_written { MinusWritten out.old room (leading out.old n) b.shape result out.new }
    ensures blank { Blank (pos 0) scratch.new }
{
    move_into(out, scratch, n);
    let end = records::MEMORY_WIDTH * n;
    let f = minus_into(&scratch[..end], first, b, out, room);
    scratch[..end].fill(0);
    f
}

// The first trapezoid of a layer that overlaps b.
fn first_overlapped(layer: &[i32], b: Placed) -> Option<Found>
    requires { All (FitFor coordinate_limit) (layer_of layer.now) × PlacedAs b.shape b }
    ensures { FoundAs (λ t. overlaps t b.shape) layer.now result }
{
    for i in 0..layer.len() / records::MEMORY_WIDTH {
        let a = trapezoids_code::placed_at(layer, i);
        if overlaps_code::overlapping(a, b) {
            return Some(Found {
                before: i,
                placed: a,
            });
        }
    }
    None
}

// The n trapezoids that `out` holds are the remainder: each replaced by its parts that are not in b. Those before the first that overlaps b stand.
pub fn reduce(
    b: Placed,
    n: usize,
    out: &mut [i32],
    scratch: &mut [i32],
    room: usize,
) -> Result<Folded, NoRoom>
    requires placed_as { PlacedAs b.shape b × Remaining out.old n room }
    requires scratch_for { ScratchFor out.old scratch.old }
    ensures minus_written { MinusWritten out.old room (leading out.old n) b.shape result out.new }
    ensures blank { Blank (pos 0) scratch.new }
{
    let Some(v) = first_overlapped(&out[..records::MEMORY_WIDTH * n], b) else {
        return Ok(Folded {
            trapezoids: n,
            overlays: n,
        });
    };
    let p = v.before;
    let start = records::MEMORY_WIDTH * p;
    let f = replace(
        v.placed,
        b,
        n - p,
        &mut out[start..],
        &mut scratch[start..],
        room - p,
    );
    match f {
        Ok(f) => Ok(Folded {
            trapezoids: p + f.trapezoids,
            overlays: p + f.overlays,
        }),
        Err(r) => {
            out[..start].fill(0);
            Err(NoRoom {
                overlays: p + r.overlays,
            })
        }
    }
}

// The same answer with more overlays.
pub fn more_overlays(n: usize, f: Result<Folded, NoRoom>) -> Result<Folded, NoRoom>
    requires { (n ≤ max_overlays) × OverlaysWithin max_overlays f }
    ensures { result ≡ with_overlays n f }
{
    match f {
        Ok(f) => Ok(Folded {
            trapezoids: f.trapezoids,
            overlays: n + f.overlays,
        }),
        Err(r) => Err(NoRoom {
            overlays: n + r.overlays,
        }),
    }
}

// One overlay, which wrote so many parts or had no room for them.
fn once(parts: Option<usize>) -> Result<Folded, NoRoom>
    ensures { result ≡ once_of parts }
{
    match parts {
        Some(trapezoids) => Ok(Folded {
            trapezoids,
            overlays: 1,
        }),
        None => Err(NoRoom { overlays: 1 }),
    }
}

// One trapezoid minus one other.
pub fn first_into(a: Placed, b: Placed, out: &mut [i32], room: usize) -> Result<Folded, NoRoom>
    requires { Pair a b × Borrowed out.old room }
    ensures { MinusWritten out.old room (a.shape ∷ []) b.shape result out.new }
{
    once(overlay_code::overlay_into(a, b, 1, out, room))
}

// The same of two that overlap.
pub fn cut_into(a: Placed, b: Placed, out: &mut [i32], room: usize) -> Result<Folded, NoRoom>
    requires { Pair a b × (overlaps a.shape b.shape ≡ true) × Borrowed out.old room }
    ensures { MinusWritten out.old room (a.shape ∷ []) b.shape result out.new }
{
    once(overlay_code::overlapping_into(a, b, 1, out, room))
}

// One trapezoid added whole.
pub fn add_whole(a: Placed, out: &mut [i32], room: usize) -> Result<Folded, NoRoom>
    requires { Borrowed out.old room }
    ensures { FoldedAs (length out.old) room (a.shape ∷ []) (addition 1 ∷ []) result out.new }
{
    if room == 0 {
        return Err(NoRoom { overlays: 0 });
    }
    trapezoids_code::store(out, a.shape);
    Ok(Folded {
        trapezoids: 1,
        overlays: 0,
    })
}

// The first trapezoid of a layer that overlaps a.
pub fn first_overlapping(a: Placed, e: Box, layer: &[i32], boxes: &[i64]) -> Option<Found>
    requires { BoxedAs a e × BoxedLayer layer.now boxes.now }
    ensures { FoundAs (overlaps a.shape) layer.now result }
{
    for i in 0..layer.len() / records::MEMORY_WIDTH {
        if !boxes_code::boxes_disjoint(e, boxes, i) {
            let b = trapezoids_code::placed_at(layer, i);
            if overlaps_code::overlapping(a, b) {
                return Some(Found {
                    before: i,
                    placed: b,
                });
            }
        }
    }
    None
}
