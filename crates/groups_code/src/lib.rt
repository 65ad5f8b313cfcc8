// The groups of the edges that span a position, put into arrays in order: the number of the lowest-numbered edge of each, and the sum of its directions.
#![tactic(auto)]

ghost use Rattle.std.specs.Prelude.{◌≡◌, ◌<◌, ◌≤◌, nat_abs, length, take};
ghost use Rattle.lists.specs.Lists.{All};
ghost use Rattle.geometry_code.specs.Code.{SmallCoefficients, fraction_of, SmallPosition};
ghost use Rattle.polygon_edges_code.specs.Edges.{EdgesHeld};
ghost use Rattle.groups_code.specs.Groups.{OrderBy, Comparables, Found, Fits, AddedAt, EdgeHeld, Held, Widened, Gathered};

use geometry::{Coefficients, Position};
use integer::Int;
use std::cmp::Ordering;

// Which of two lines is the lower right of a position, or that they coincide, by their numbers.
fn order_by(a: Coefficients, b: Coefficients, at: Position) -> Ordering
    requires { SmallCoefficients a × SmallCoefficients b × SmallPosition at }
    ensures { OrderBy a b (fraction_of at) result }
{
    geometry_code::order_right(geometry_code::meeting_by(a, b), at)
}

// Where a line belongs among the first m groups, right of a position.
fn place_group(
    terms: &[i64],
    numbers: &[u32],
    m: usize,
    a: Coefficients,
    at: Position,
) -> Result<usize, usize>
    requires { Comparables terms.now m numbers.now × SmallCoefficients a × SmallPosition at }
    ensures { Found a (fraction_of at) terms.now m numbers.now result }
{
    for i in 0..m {
        let b = polygon_edges_code::terms_at(terms, numbers[i] as usize);
        match order_by(a, b, at) {
            Ordering::Less => {
                return Err(i);
            }
            Ordering::Equal => {
                return Ok(i);
            }
            Ordering::Greater => {}
        }
    }
    Err(m)
}

// An edge's number and direction put there; how many groups there are then.
fn add_group(
    place: Result<usize, usize>,
    id: u32,
    w: Int,
    numbers: &mut [u32],
    weights: &mut [i64],
    m: usize,
) -> usize
    requires { Fits place m × (m < 32) × (length numbers.old ≡ 32) × (length weights.old ≡ 32) × (nat_abs w.v ≤ 1) × All (λ w. nat_abs w ≤ 64) (take m weights.old) }
    ensures { AddedAt place id w.v m numbers.old weights.old result numbers.new weights.new }
{
    match place {
        Err(i) => {
            sorting_code::insert(numbers, m, i, id);
            sorting_code::insert(weights, m, i, w.v);
            m + 1
        }
        Ok(i) => {
            let s = integer_code::add(integer_code::get_number(weights, i), w);
            numbers[i] = id;
            integer_code::put_number(weights, i, s);
            m
        }
    }
}

// Edge number k put among the groups, if it spans the position.
fn add_spanning(
    lines: &[i32],
    terms: &[i64],
    k: usize,
    at: Position,
    numbers: &mut [u32],
    weights: &mut [i64],
    m: usize,
) -> usize
    requires { EdgeHeld lines.now terms.now k × SmallPosition at × Held lines.now terms.now m numbers.old weights.old × (m < 32) }
    ensures { Widened lines.now terms.now (fraction_of at) k m numbers.old weights.old result numbers.new weights.new }
{
    let l = polygon_edges_code::line_at(lines, k);
    if polygon_events_code::is_spanning(at, l) {
        let a = polygon_edges_code::terms_at(terms, k);
        let w = integer_code::get_number(terms, 4 * k + 3);
        let place = place_group(terms, numbers, m, a, at);
        add_group(place, k as u32, w, numbers, weights, m)
    } else {
        m
    }
}

// The groups of the edges that span a position; how many there are.
pub fn gather(
    lines: &[i32],
    terms: &[i64],
    edges: usize,
    at: Position,
    numbers: &mut [u32],
    weights: &mut [i64],
) -> usize
    requires { EdgesHeld edges lines.now terms.now × SmallPosition at × (length numbers.old ≡ 32) × (length weights.old ≡ 32) }
    ensures { Gathered edges lines.now terms.now (fraction_of at) 0 result numbers.new weights.new }
{
    let mut m = 0;
    for i in (0..edges).rev() {
        m = add_spanning(lines, terms, i, at, numbers, weights, m);
    }
    m
}
