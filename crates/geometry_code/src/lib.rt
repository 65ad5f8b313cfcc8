// Where lines cross, and how positions and heights compare, exact for every input within the coordinate limit.
// A position answers `Horizontal`: Left, Level or Right of another. Lines answer an `Ordering`: Less is below, Equal is meeting or
// coinciding, Greater is above.
#![tactic(auto)]

ghost use Rattle.std.specs.Prelude.{◌≡◌, ◌≤◌, T, nat_abs};
ghost use Rattle.integer.specs.Integer.{◌⊗◌};
ghost use Rattle.integer.specs.Compare.{order_of};
ghost use Rattle.geometry.specs.Limit.{coordinate_limit, OnGrid, det_bound, numer_bound};
ghost use Rattle.geometry.specs.Positions.{crosses, heights, right_of, below};
ghost use Rattle.geometry.specs.Standing.{across, one_sign, horizontal, is_left};
ghost use Rattle.geometry.specs.Points.{under as under_of};
ghost use Rattle.geometry_code.specs.Code.{CornersOf, CoefficientsOf, SmallCoefficients, SmallMeeting, MeetingBy, MeetingOf, fraction_of, Comparable, SmallPosition, order_right, RatioOf, CrossingOf, CrossingBy, SmallCrossing, PositionOf, point_of, SmallPoint};

use geometry::{Base, Coefficients, Corners, Horizontal, Line, Meeting, Position};
use integer::Int;
use std::cmp::Ordering;

pub fn corners_of(l: Line) -> Corners
    ensures { CornersOf l result }
{
    Corners {
        x1: integer_code::widen(l.x1),
        y1: integer_code::widen(l.y1),
        x2: integer_code::widen(l.x2),
        y2: integer_code::widen(l.y2),
    }
}

pub fn coefficients_of(l: Line) -> Coefficients
    requires { OnGrid coordinate_limit l }
    ensures { CoefficientsOf l result }
{
    let k = corners_of(l);
    let dx = integer_code::sub(k.x2, k.x1);
    let dy = integer_code::sub(k.y2, k.y1);
    let a = integer_code::mul(k.y1, k.x2);
    let b = integer_code::mul(k.y2, k.x1);
    let offset = integer_code::sub(a, b);
    Coefficients { dx, dy, offset }
}

// The determinant and numerator of two lines, by their numbers.
pub fn meeting_by(a: Coefficients, b: Coefficients) -> Meeting
    requires { SmallCoefficients a × SmallCoefficients b }
    ensures { MeetingBy a b result }
{
    let p = integer_code::mul(a.dy, b.dx);
    let q = integer_code::mul(b.dy, a.dx);
    let det = integer_code::sub(p, q);
    let u = integer_code::mul(a.dx, b.offset);
    let v = integer_code::mul(b.dx, a.offset);
    let numer = integer_code::sub(u, v);
    Meeting { det, numer }
}

// The same of the lines.
pub fn meeting_of(l: Line, m: Line) -> Meeting
    requires { OnGrid coordinate_limit l × OnGrid coordinate_limit m }
    ensures { MeetingOf l m result }
{
    meeting_by(coefficients_of(l), coefficients_of(m))
}

// Where two lines cross: their numerator over their determinant, which is of either sign.
pub fn ratio_of(l: Line, m: Line) -> Option<Position>
    requires { OnGrid coordinate_limit l × OnGrid coordinate_limit m }
    ensures { RatioOf l m result }
{
    let k = meeting_of(l, m);
    match integer_code::compare(k.det, integer_code::of(0)) {
        Ordering::Equal => None,
        Ordering::Less | Ordering::Greater => Some(Position {
            num: k.numer,
            den: k.det,
        }),
    }
}

// The same with a positive denominator, for a position that is kept or that heights are taken at, by the lines' determinant and numerator.
pub fn crossing_by(k: Meeting) -> Option<Position>
    requires { SmallMeeting k }
    ensures crossing_by { CrossingBy k result }
    ensures small { SmallCrossing result }
{
    // by two tests: a match on the order of the two takes more instructions
    let zero = integer_code::of(0);
    if integer_code::less(zero, k.det) {
        return Some(Position {
            num: k.numer,
            den: k.det,
        });
    }
    if integer_code::less(k.det, zero) {
        return Some(Position {
            num: integer_code::neg(k.numer),
            den: integer_code::neg(k.det),
        });
    }
    None
}

// The same of the lines.
pub fn crossing_of(l: Line, m: Line) -> Option<Position>
    requires { OnGrid coordinate_limit l × OnGrid coordinate_limit m }
    ensures { CrossingOf l m result }
{
    crossing_by(meeting_of(l, m))
}

// The position of a base whose lines cross.
pub fn position_of(b: Base) -> Position
    requires { OnGrid coordinate_limit b.first × OnGrid coordinate_limit b.second × T (crosses b.first b.second) }
    ensures { PositionOf b result }
{
    crossing_of(b.first, b.second).unwrap()
}

// a·b against c·d. Every comparison of positions and of heights goes through this one.
pub fn compare_products(a: Int, b: Int, c: Int, d: Int) -> Ordering
    requires first_product { (nat_abs a.v ≤ numer_bound coordinate_limit) × (nat_abs b.v ≤ det_bound coordinate_limit) }
    requires second_product { (nat_abs c.v ≤ numer_bound coordinate_limit) × (nat_abs d.v ≤ det_bound coordinate_limit) }
    ensures { result ≡ order_of (a.v ⊗ b.v) (c.v ⊗ d.v) }
{
    integer_code::compare(integer_code::mul(a, b), integer_code::mul(c, d))
}

// Of two numbers that are not 0.
#[tactic(auto, unfolding(geometry::specs::Standing::one_sign))]
fn one_sign(d: Int, e: Int) -> bool
    ensures { result ≡ one_sign d.v e.v }
{
    let zero = integer_code::of(0);
    integer_code::less(d, zero) == integer_code::less(e, zero)
}

// By the order of two products.
fn reply_of(o: Ordering) -> Horizontal
    ensures { result ≡ across o }
{
    match o {
        Ordering::Less => Horizontal::Left,
        Ordering::Equal => Horizontal::Level,
        Ordering::Greater => Horizontal::Right,
    }
}

// Left, level or right, for either sign of both denominators, which are not zero. Every comparison of bases and positions is this one.
#[tactic(auto, unfolding(geometry::specs::Standing::horizontal, integer::specs::Fraction::order))]
pub fn compare(p: Position, q: Position) -> Horizontal
    requires { Comparable p × Comparable q }
    ensures { result ≡ horizontal (fraction_of p) (fraction_of q) }
{
    if one_sign(p.den, q.den) {
        reply_of(compare_products(p.num, q.den, q.num, p.den))
    } else {
        reply_of(compare_products(q.num, p.den, p.num, q.den))
    }
}

pub fn is_left(h: Horizontal) -> bool
    ensures { result ≡ is_left h }
{
    matches!(h, Horizontal::Left)
}

// The heights of two lines at a position.
#[tactic(auto, unfolding(geometry::specs::Positions::heights))]
pub fn heights_at(l: Line, m: Line, x: Position) -> Ordering
    requires { OnGrid coordinate_limit l × OnGrid coordinate_limit m × SmallPosition x }
    ensures { result ≡ heights (fraction_of x) l m }
{
    let k = meeting_of(l, m);
    compare_products(x.num, k.det, k.numer, x.den)
}

// Which of two lines is the lower right of a position, or that they coincide, by their determinant and numerator.
#[tactic(auto, unfolding(crate::specs::Code::order_right))]
pub fn order_right(k: Meeting, x: Position) -> Ordering
    requires { SmallMeeting k × SmallPosition x }
    ensures { result ≡ order_right k (fraction_of x) }
{
    // the slopes are asked only of lines that meet there
    match compare_products(x.num, k.det, k.numer, x.den) {
        Ordering::Equal => integer_code::compare(k.det, integer_code::of(0)),
        heights => heights,
    }
}

// The same of the lines.
#[tactic(auto, using(crate::proofs::Branches::right_meeting))]
pub fn right_order(l: Line, m: Line, x: Position) -> Ordering
    requires { OnGrid coordinate_limit l × OnGrid coordinate_limit m × SmallPosition x }
    ensures { result ≡ right_of (fraction_of x) l m }
{
    order_right(meeting_of(l, m), x)
}

// Whether a line is below another right of a position.
#[tactic(auto, unfolding(geometry::specs::Positions::below))]
pub fn is_below(l: Line, m: Line, x: Position) -> bool
    requires { OnGrid coordinate_limit l × OnGrid coordinate_limit m × SmallPosition x }
    ensures { result ≡ below (fraction_of x) l m }
{
    right_order(l, m, x).is_lt()
}

// Whether a line is at or below the point (x/d, y/d).
pub fn under(l: Line, x: Int, y: Int, d: Int) -> bool
    requires { OnGrid coordinate_limit l × SmallPoint x y d }
    ensures { result ≡ under_of (point_of x y d) l }
{
    let k = coefficients_of(l);
    let a = integer_code::mul(k.dx, y);
    let b = integer_code::mul(k.dy, x);
    let c = integer_code::mul(k.offset, d);
    let u = integer_code::sub(a, b);
    let orientation = integer_code::sub(u, c);
    integer_code::at_most(integer_code::of(0), orientation)
}
