// The events of an overlay (paper 01: pair cut) that lie in the range of the first trapezoid, in order.
#![tactic(auto)]

ghost use Rattle.std.specs.Prelude.{◌≡◌};
ghost use Rattle.geometry_code.specs.Code.{SmallCrossing};
ghost use Rattle.sorting_code.specs.Entries.{Stored, Room};
ghost use Rattle.trapezoids_code.specs.Placed.{Pair, CommonLeft, CommonRight};
ghost use Rattle.overlaps_code.specs.Code.{MeetingsOf};
ghost use Rattle.overlay_events_code.specs.Events.{named, AddedIf, Eight, EventsWithin};

use geometry::{Base, Placed, Position, Trapezoid};
use overlay::Meetings;

// The base with a name: the place that it has in the order of names.
#[tactic(auto, unfolding(crate::specs::Events::named))]
pub fn base_named(a: Trapezoid, b: Trapezoid, id: u32) -> Base
    ensures { result ≡ named a b id }
{
    match id {
        0 => a.left,
        1 => a.right,
        2 => b.left,
        3 => b.right,
        4 => Base {
            first: a.bottom,
            second: b.bottom,
        },
        5 => Base {
            first: a.bottom,
            second: b.top,
        },
        6 => Base {
            first: a.top,
            second: b.bottom,
        },
        _ => Base {
            first: a.top,
            second: b.top,
        },
    }
}

// A position put into its place, if there is one.
fn add_if(
    at: Option<Position>,
    num: &mut [i64],
    den: &mut [i64],
    name: &mut [u32],
    n: usize,
    id: u32,
) -> usize
    requires { SmallCrossing at × Stored n num.old den.old × Room n num.old den.old name.old }
    ensures { AddedIf at id n num.old den.old name.old result num.new den.new name.new }
{
    match at {
        Some(p) => sorting_code::add_entry(num, den, name, n, p, id),
        None => n,
    }
}

// The events in the range of the first, the last name first: of those that stand level the first name stays.
pub fn events_into(
    a: Placed,
    b: Placed,
    m: Meetings,
    lo: Position,
    hi: Position,
    num: &mut [i64],
    den: &mut [i64],
    name: &mut [u32],
) -> usize
    requires { Pair a b × MeetingsOf a.shape b.shape m × CommonLeft a b lo × CommonRight a b hi × Eight num.old den.old name.old }
    ensures { EventsWithin a.shape b.shape result num.new den.new name.new }
{
    let top_top = overlaps_code::meeting_between(m.m13, lo, hi);
    let p = add_if(top_top, num, den, name, 0, 7);
    let top_bottom = overlaps_code::meeting_between(m.m12, lo, hi);
    let q = add_if(top_bottom, num, den, name, p, 6);
    let bottom_top = overlaps_code::meeting_between(m.m03, lo, hi);
    let r = add_if(bottom_top, num, den, name, q, 5);
    let bottom_bottom = overlaps_code::meeting_between(m.m02, lo, hi);
    let s = add_if(bottom_bottom, num, den, name, r, 4);
    let ends = geometry_code::is_left(geometry_code::compare(b.right, a.right)).then_some(b.right);
    let t = add_if(ends, num, den, name, s, 3);
    let begins = geometry_code::is_left(geometry_code::compare(a.left, b.left)).then_some(b.left);
    let u = add_if(begins, num, den, name, t, 2);
    let v = sorting_code::add_entry(num, den, name, u, a.right, 1);
    sorting_code::add_entry(num, den, name, v, a.left, 0)
}
