// A polygon fractured into trapezoids by nonzero winding (paper 01: cutting).
#![tactic(auto)]

ghost use Rattle.std.specs.Prelude.{◌≡◌, map, ◌<◌, ◌≤◌, length};
ghost use Rattle.geometry.specs.Limit.{coordinate_limit};
ghost use Rattle.geometry.specs.Polygons.{PolygonOnGrid};
ghost use Rattle.geometry.specs.Positions.{position};
ghost use Rattle.sweep.specs.Columns.{is_zero};
ghost use Rattle.sweep.specs.Sweep.{columns};
ghost use Rattle.fracture.specs.Polygons.{segment};
ghost use Rattle.fracture.specs.Fracture.{trapezoids, fracture};
ghost use Rattle.geometry_code.specs.Polygons.{polygon_of};
ghost use Rattle.trapezoids_code.specs.Tails.{Borrowed, FilledAs};
ghost use Rattle.sorting_code.specs.Entries.{stored};
ghost use Rattle.polygon_edges_code.specs.Edges.{stored_edges, EdgesHeld};
ghost use Rattle.stored_events_code.specs.Events.{named, Wide, Listed};
ghost use Rattle.fracture_code.specs.Code.{HasLines, between, stack, Summable};

use geometry::{Base, Trapezoid};
use integer::Int;

fn is_zero(x: Int) -> bool
    ensures { result ≡ is_zero x.v }
{
    integer_code::compare(x, integer_code::of(0)).is_eq()
}

// The trapezoid from line number `low` up to line number h.
fn between(lines: &[i32], low: u32, h: u32, left: Base, right: Base) -> Trapezoid
    requires { (length lines.now ≡ 128) × (low < 32) × (h < 32) }
    ensures { result ≡ between lines.now left right low h }
{
    Trapezoid {
        left,
        right,
        bottom: polygon_edges_code::line_at(lines, low as usize),
        top: polygon_edges_code::line_at(lines, h as usize),
    }
}

// The trapezoids of a column whose groups are in order, by the running sum, from the bottom up.
fn fill_groups(
    lines: &[i32],
    numbers: &[u32],
    weights: &[i64],
    m: usize,
    left: Base,
    right: Base,
    out: &mut [i32],
    room: usize,
) -> Option<usize>
    requires { Summable lines.now m numbers.now weights.now × Borrowed out.old room }
    ensures { FilledAs (length out.old) room (stack lines.now left right m numbers.now weights.now) result out.new }
{
    let mut sum = integer_code::of(0);
    // the line at which the sum left zero, until it returns
    let mut bottom = None;
    let mut n = 0;
    for k in 0..m {
        let h = numbers[k];
        sum = integer_code::add(sum, integer_code::get_number(weights, k));
        let zero = is_zero(sum);
        match bottom {
            Some(low) if zero => {
                let t = between(lines, low, h, left, right);
                let rest = &mut out[records::MEMORY_WIDTH * n..];
                let Some(more) = trapezoids_code::put(t, rest, room - n) else {
                    out.fill(0);
                    return None;
                };
                n += more;
                bottom = None;
            }
            None if !zero => {
                bottom = Some(h);
            }
            _ => {}
        }
    }
    Some(n)
}

// The trapezoids between neighbouring events, from left to right.
fn fill_events(
    lines: &[i32],
    terms: &[i64],
    edges: usize,
    limit: u32,
    num: &[i64],
    den: &[i64],
    name: &[u32],
    n: usize,
    numbers: &mut [u32],
    weights: &mut [i64],
    out: &mut [i32],
    room: usize,
) -> Option<usize>
    requires { EdgesHeld edges lines.now terms.now × HasLines edges lines.now terms.now × (limit ≤ coordinate_limit) × Listed limit lines.now n num.now den.now name.now × (length numbers.old ≡ 32) × (length weights.old ≡ 32) × Borrowed out.old room }
    ensures { FilledAs (length out.old) room (columns segment position trapezoids (stored_edges edges lines.now terms.now) (map (named limit lines.now) (stored n num.now den.now name.now))) result out.new }
{
    if n == 0 {
        return Some(0);
    }
    let mut p = stored_events_code::event_number(lines, limit, num, den, name, 0);
    let mut done = 0;
    for i in 1..n {
        let q = stored_events_code::event_number(lines, limit, num, den, name, i);
        let m = groups_code::gather(lines, terms, edges, p.at, numbers, weights);
        let Some(more) = fill_groups(
            lines,
            numbers,
            weights,
            m,
            p.base,
            q.base,
            &mut out[records::MEMORY_WIDTH * done..],
            room - done,
        ) else {
            out.fill(0);
            return None;
        };
        done += more;
        p = q;
    }
    Some(done)
}

// The trapezoids of the polygon whose vertices' coordinates are the words, at most 32 vertices, written into a blank tail of which `room` records
// may be filled. The events are put into `num`, `den` and `name`.
pub fn fracture_polygon(
    words: &[i32],
    limit: u32,
    num: &mut [i64],
    den: &mut [i64],
    name: &mut [u32],
    out: &mut [i32],
    room: usize,
) -> Option<usize>
    requires { PolygonOnGrid limit (polygon_of words.now) × (limit ≤ coordinate_limit) × (length words.now ≤ 64) × Wide num.old den.old name.old × Borrowed out.old room }
    ensures { FilledAs (length out.old) room (fracture limit (polygon_of words.now)) result out.new }
{
    let mut lines = [0; 128];
    let mut terms = [0; 128];
    let mut numbers = [0; 32];
    let mut weights = [0; 32];
    let edges = polygon_edges_code::edges_into(words, &mut lines, &mut terms);
    let n = stored_events_code::add_events(words, &lines, edges, num, den, name);
    fill_events(
        &lines,
        &terms,
        edges,
        limit,
        num,
        den,
        name,
        n,
        &mut numbers,
        &mut weights,
        out,
        room,
    )
}
