// The parts of a column of an overlay that have one tag, written into a borrowed tail.
#![tactic(auto)]

ghost use Rattle.std.specs.Prelude.{◌≡◌, [], eqb, length};
ghost use Rattle.geometry.specs.Positions.{position};
ghost use Rattle.overlay.specs.Overlay.{tag_of};
ghost use Rattle.trapezoids_code.specs.Tails.{in_front, Borrowed, FilledAs};
ghost use Rattle.overlay_events_code.specs.Events.{named};
ghost use Rattle.columns_code.specs.Order.{passing, strip, strips};
ghost use Rattle.columns_code.specs.Code.{OrdersAt};

use geometry::Trapezoid;
use overlay::{Column, Orders};

// Whether what is above side z lies in the trapezoid with the sides `bottom` and `top`, from whether what is below it does.
fn pass(bottom: usize, top: usize, z: usize, inside: bool) -> bool
    ensures { result ≡ passing bottom top z inside }
{
    z == bottom || z != top && inside
}

// Whether what lies in the one trapezoid or not, and in the other or not, has the tag.
fn has_tag(in_a: bool, in_b: bool, tag: u8) -> bool
    ensures { result ≡ eqb (tag_of in_a in_b) tag }
{
    match (in_a, in_b) {
        (false, false) => tag == 0,
        (true, false) => tag == 1,
        (false, true) => tag == 2,
        (true, true) => tag == 3,
    }
}

// The trapezoid between two sides of a column, from the event named p to the event named q, if it is wanted.
fn put_strip(
    yes: bool,
    a: Trapezoid,
    b: Trapezoid,
    p: u32,
    q: u32,
    lower: usize,
    z: usize,
    out: &mut [i32],
    room: usize,
) -> Option<usize>
    requires { Borrowed out.old room }
    ensures { FilledAs (length out.old) room (in_front yes (strip a b (named a b p) (named a b q) lower z) []) result out.new }
{
    if yes {
        let t = Trapezoid {
            left: overlay_events_code::base_named(a, b, p),
            right: overlay_events_code::base_named(a, b, q),
            bottom: columns_code::line_of_side(a, b, lower),
            top: columns_code::line_of_side(a, b, z),
        };
        trapezoids_code::put(t, out, room)
    } else {
        Some(0)
    }
}

// The trapezoids of a column that have the tag, from the bottom up.
pub fn fill_column(
    a: Trapezoid,
    b: Trapezoid,
    tag: u8,
    p: u32,
    q: u32,
    o: Orders,
    c: Column,
    out: &mut [i32],
    room: usize,
) -> Option<usize>
    requires { OrdersAt a b (position (named a b p)) c.in_a c.in_b o × (length c.order ≡ 4) × Borrowed out.old room }
    ensures { FilledAs (length out.old) room (strips tag a b (named a b p) (named a b q) c.in_a c.in_b c.order) result out.new }
{
    if !columns_code::present(c.in_a, c.in_b, c.order[0]) {
        return Some(0);
    }
    let mut lower = c.order[0];
    let mut inside_a = pass(0, 1, lower, false);
    let mut inside_b = pass(2, 3, lower, false);
    let mut n = 0;
    for &z in &c.order[1..] {
        if !columns_code::present(c.in_a, c.in_b, z) {
            return Some(n);
        }
        let rises = columns_code::order_of(o, lower, z).is_lt();
        // A trapezoid begins at a side that is above the one before it.
        let yes = rises && has_tag(inside_a, inside_b, tag);
        let Some(m) = put_strip(
            yes,
            a,
            b,
            p,
            q,
            lower,
            z,
            &mut out[records::MEMORY_WIDTH * n..],
            room - n,
        ) else {
            out.fill(0);
            return None;
        };
        n += m;
        // Of coinciding sides the first is kept.
        if rises {
            lower = z;
        }
        inside_a = pass(0, 1, z, inside_a);
        inside_b = pass(2, 3, z, inside_b);
    }
    Some(n)
}
