// Rows 7 to 11: whether a trapezoid is fit, and the first of a layer that is not.
#![tactic(auto)]

ghost use Rattle.std.specs.Prelude.{◌≡◌, ◌*◌, ◌≤◌};
ghost use Rattle.lists.specs.Lists.{All};
ghost use Rattle.lists.specs.Tests.{all};
ghost use Rattle.records.specs.Limits.{max_records};
ghost use Rattle.geometry.specs.Limit.{coordinate_limit, on_grid, OnGrid};
ghost use Rattle.geometry.specs.Trapezoids.{lines_of, layer_of};
ghost use Rattle.geometry.specs.Fitness.{line_on_grid, is_line, apart_by, below_between, shape_verdict, verdict, first_refusal};
ghost use Rattle.geometry_code.specs.Code.{fraction_of, SmallPosition};

use geometry::{Horizontal, Line, Position, Refusal, Trapezoid};
use integer::Int;
use std::cmp::Ordering;

// Whether a coordinate is from -limit to limit.
#[tactic(auto, unfolding(geometry::specs::Limit::on_grid))]
pub fn within(x: Int, limit: u32) -> bool
    ensures { result ≡ on_grid limit x.v }
{
    let most = integer_code::natural(limit);
    let least = integer_code::neg(most);
    integer_code::at_most(least, x) && integer_code::at_most(x, most)
}

#[tactic(auto, unfolding(geometry::specs::Fitness::line_on_grid))]
pub fn line_on_grid(l: Line, limit: u32) -> bool
    ensures { result ≡ line_on_grid limit l }
{
    let k = geometry_code::corners_of(l);
    within(k.x1, limit) && within(k.y1, limit) && within(k.x2, limit) && within(k.y2, limit)
}

#[tactic(auto, unfolding(geometry::specs::Fitness::is_line))]
fn is_line(l: Line) -> bool
    ensures { result ≡ is_line l }
{
    l.x1 < l.x2
}

// Row 7 lets the trapezoid pass.
pub fn on_grid(t: Trapezoid, limit: u32) -> bool
    ensures { result ≡ all (line_on_grid limit) (lines_of t) }
{
    line_on_grid(t.left.first, limit)
        && line_on_grid(t.left.second, limit)
        && line_on_grid(t.right.first, limit)
        && line_on_grid(t.right.second, limit)
        && line_on_grid(t.bottom, limit)
        && line_on_grid(t.top, limit)
}

// Row 8 lets the trapezoid pass.
fn has_lines(t: Trapezoid) -> bool
    ensures { result ≡ all is_line (lines_of t) }
{
    is_line(t.left.first)
        && is_line(t.left.second)
        && is_line(t.right.first)
        && is_line(t.right.second)
        && is_line(t.bottom)
        && is_line(t.top)
}

// Row 11: the bottom is above the top at neither base, and below it at one.
#[tactic(auto, unfolding(geometry::specs::Fitness::below_between))]
fn below_between(l: Line, m: Line, p: Position, q: Position) -> bool
    requires { OnGrid coordinate_limit l × OnGrid coordinate_limit m × SmallPosition p × SmallPosition q }
    ensures { result ≡ below_between (fraction_of p) (fraction_of q) l m }
{
    let a = geometry_code::heights_at(l, m, p);
    let b = geometry_code::heights_at(l, m, q);
    apart(a, b)
}

fn apart(a: Ordering, b: Ordering) -> bool
    ensures { result ≡ apart_by a b }
{
    match (a, b) {
        (Ordering::Less, b) => b.is_le(),
        (Ordering::Equal, b) => b.is_lt(),
        (Ordering::Greater, _) => false,
    }
}

// Rows 9 to 11, of a trapezoid that row 7 lets pass.
#[tactic(auto, using(crate::proofs::Branches::shape_left, crate::proofs::Branches::shape_right))]
fn judge_shape(t: Trapezoid) -> Result<(), u32>
    requires { All (OnGrid coordinate_limit) (lines_of t) }
    ensures { result ≡ shape_verdict t }
{
    let Some(p) = geometry_code::crossing_of(t.left.first, t.left.second) else {
        return Err(9);
    };
    let Some(q) = geometry_code::crossing_of(t.right.first, t.right.second) else {
        return Err(9);
    };
    match geometry_code::compare(p, q) {
        Horizontal::Left => {
            if below_between(t.bottom, t.top, p, q) {
                Ok(())
            } else {
                Err(11)
            }
        }
        Horizontal::Level => Err(10),
        Horizontal::Right => Err(10),
    }
}

// Whether a trapezoid is fit under a limit, or the first of the rows 7 to 11 that refuses it.
#[tactic(auto, using(crate::proofs::Branches::verdict_grid, crate::proofs::Branches::verdict_lines, crate::proofs::Branches::verdict_shape))]
pub fn judge(t: Trapezoid, limit: u32) -> Result<(), u32>
    requires { limit ≤ coordinate_limit }
    ensures { result ≡ verdict limit t }
{
    if !on_grid(t, limit) {
        return Err(7);
    }
    if !has_lines(t) {
        return Err(8);
    }
    judge_shape(t)
}

// The first refusal of a layer's words, with places numbered on from a start.
#[tactic(auto, using(crate::proofs::Checking::fit, crate::proofs::Checking::refused, crate::proofs::Checking::passed))]
pub fn first_refused(words: &[i32], limit: u32, start: usize) -> Result<(), Refusal>
    requires { (limit ≤ coordinate_limit) × (start ≤ 2 * max_records) }
    ensures { result ≡ first_refusal limit start (layer_of words.now) }
{
    for i in 0..words.len() / records::MEMORY_WIDTH {
        let t = trapezoids_code::load(words, i);
        if let Err(number) = judge(t, limit) {
            return Err(Refusal {
                number,
                place: start + i,
            });
        }
    }
    Ok(())
}
