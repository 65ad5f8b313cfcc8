// The four sides of two trapezoids in their vertical order, carried from column to column.
#![tactic(auto)]

ghost use Rattle.std.specs.Prelude.{◌≡◌, ◌<◌};
ghost use Rattle.overlay.specs.Overlay.{in_range};
ghost use Rattle.geometry_code.specs.Code.{fraction_of, SmallPosition};
ghost use Rattle.trapezoids_code.specs.Placed.{PlacedAs};
ghost use Rattle.columns_code.specs.Order.{line_of_side, present_by};
ghost use Rattle.columns_code.specs.Code.{SmallMeetings, OrdersBy, OrderUp, OrderIn, LessIn, FrontsIn, FrontIn, FourNumbers, ExchangedIn, FourSides, ColumnBy};

use geometry::{Line, Placed, Position, Trapezoid};
use overlay::{Column, Fronts, Meetings, Orders};
use std::cmp::Ordering;

#[tactic(auto, unfolding(crate::specs::Order::line_of_side))]
pub fn line_of_side(a: Trapezoid, b: Trapezoid, i: usize) -> Line
    ensures { result ≡ line_of_side a b i }
{
    match i {
        0 => a.bottom,
        1 => a.top,
        2 => b.bottom,
        _ => b.top,
    }
}

// Whether the trapezoid of a side has the column in its range.
#[tactic(auto, unfolding(crate::specs::Order::present_by))]
pub fn present(in_a: bool, in_b: bool, i: usize) -> bool
    ensures { result ≡ present_by in_a in_b i }
{
    if i < 2 { in_a } else { in_b }
}

// The orders of the sides of the one trapezoid and of the other right of a position.
pub fn orders_at(m: Meetings, at: Position) -> Orders
    requires { SmallMeetings m × SmallPosition at }
    ensures { OrdersBy m (fraction_of at) result }
{
    Orders {
        o02: geometry_code::order_right(m.m02, at),
        o03: geometry_code::order_right(m.m03, at),
        o12: geometry_code::order_right(m.m12, at),
        o13: geometry_code::order_right(m.m13, at),
    }
}

// The order of a side and one with a greater number: of one trapezoid's own sides the bottom is the lower.
fn order_up(o: Orders, i: usize, j: usize) -> Ordering
    requires { i < j }
    ensures { OrderUp o i j result }
{
    match (i, j) {
        (0, 1) => Ordering::Less,
        (0, 2) => o.o02,
        (0, _) => o.o03,
        (1, 2) => o.o12,
        (1, _) => o.o13,
        (2, _) => Ordering::Less,
        _ => Ordering::Equal,
    }
}

// The order of two sides.
pub fn order_of(o: Orders, i: usize, j: usize) -> Ordering
    ensures { OrderIn o i j result }
{
    if i < j {
        order_up(o, i, j)
    } else if j < i {
        order_up(o, j, i).reverse()
    } else {
        Ordering::Equal
    }
}

// Whether a side is in front of another: present ones first, then by their order, then by number.
fn side_less(o: Orders, in_a: bool, in_b: bool, i: usize, j: usize) -> bool
    ensures { LessIn o in_a in_b i j result }
{
    match (present(in_a, in_b, i), present(in_a, in_b, j)) {
        (true, true) => order_of(o, i, j).then(i.cmp(&j)).is_lt(),
        (true, false) => true,
        (false, true) => false,
        (false, false) => i < j,
    }
}

// Which of each two sides is in front of the other.
fn fronts_of(o: Orders, in_a: bool, in_b: bool) -> Fronts
    ensures { FrontsIn o in_a in_b result }
{
    Fronts {
        f01: side_less(o, in_a, in_b, 0, 1),
        f02: side_less(o, in_a, in_b, 0, 2),
        f03: side_less(o, in_a, in_b, 0, 3),
        f12: side_less(o, in_a, in_b, 1, 2),
        f13: side_less(o, in_a, in_b, 1, 3),
        f23: side_less(o, in_a, in_b, 2, 3),
    }
}

// Whether a side is in front of one with a greater number.
fn front_up(f: Fronts, i: usize, j: usize) -> bool
    requires { (i < j) × (j < 4) }
    ensures { FrontIn f i j result }
{
    match (i, j) {
        (0, 1) => f.f01,
        (0, 2) => f.f02,
        (0, _) => f.f03,
        (1, 2) => f.f12,
        (1, _) => f.f13,
        _ => f.f23,
    }
}

// Whether a side is in front of another.
fn is_front(f: Fronts, i: usize, j: usize) -> bool
    requires { (i < 4) × (j < 4) }
    ensures { FrontIn f i j result }
{
    if i < j {
        front_up(f, i, j)
    } else if j < i {
        !front_up(f, j, i)
    } else {
        false
    }
}

// Two entries of the order, the lesser side in front.
fn exchange(f: Fronts, mut c: Column, i: usize, j: usize) -> Column
    requires { FourNumbers c.order × (i < 4) × (j < 4) }
    ensures { FourNumbers result.order × ExchangedIn f i j c result }
{
    if is_front(f, c.order[j], c.order[i]) {
        c.order.swap(i, j);
    }
    c
}

// Whether a position is in the range of a trapezoid.
pub fn in_range(a: Placed, at: Position) -> bool
    requires { PlacedAs a.shape a × SmallPosition at }
    ensures { result ≡ in_range (fraction_of at) a.shape }
{
    !geometry_code::is_left(geometry_code::compare(at, a.left))
        && geometry_code::is_left(geometry_code::compare(at, a.right))
}

// The column right of a position that is in the ranges or not, from the column before it, however many sides meet there.
pub fn column_at(o: Orders, in_a: bool, in_b: bool, c: Column) -> Column
    requires { FourSides c.order }
    ensures { ColumnBy o in_a in_b result }
{
    let w = fronts_of(o, in_a, in_b);
    let order = c.order;
    let d = Column { order, in_a, in_b };
    let e = exchange(w, d, 0, 1);
    let f = exchange(w, e, 2, 3);
    let g = exchange(w, f, 0, 2);
    let h = exchange(w, g, 1, 3);
    exchange(w, h, 1, 2)
}
