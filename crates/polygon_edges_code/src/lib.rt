// The edges of a polygon in slices: of each edge four words of its line, and four numbers: dx, dy and offset of the line, and the direction.
#![tactic(auto)]

ghost use Rattle.std.specs.Prelude.{◌≡◌, ◌+◌, ◌<◌, ◌≤◌, length};
ghost use Rattle.geometry.specs.Limit.{coordinate_limit, OnGrid};
ghost use Rattle.geometry.specs.Polygons.{PolygonOnGrid};
ghost use Rattle.fracture.specs.Polygons.{through, edge};
ghost use Rattle.geometry_code.specs.Polygons.{polygon_of};
ghost use Rattle.polygon_edges_code.specs.Edges.{line_number, terms_number, EdgesOf, EdgePut, vertex_at, TakesEdge, Lengthened};

use geometry::{Coefficients, Line};
use integer::Int;

// The line of edge number k.
pub fn line_at(lines: &[i32], k: usize) -> Line
    requires { (length lines.now ≡ 128) × (k < 32) }
    ensures { result ≡ line_number lines.now k }
{
    trapezoids_code::load_line(lines, 4 * k)
}

// Its three numbers.
pub fn terms_at(terms: &[i64], k: usize) -> Coefficients
    requires { (length terms.now ≡ 128) × (k < 32) }
    ensures { result ≡ terms_number terms.now k }
{
    Coefficients {
        dx: integer_code::get_number(terms, 4 * k),
        dy: integer_code::get_number(terms, 4 * k + 1),
        offset: integer_code::get_number(terms, 4 * k + 2),
    }
}

// Edge number n, with its line and its direction.
fn put_edge(lines: &mut [i32], terms: &mut [i64], n: usize, l: Line, direction: Int)
    requires { (length lines.old ≡ 128) × (length terms.old ≡ 128) × (n < 32) × OnGrid coordinate_limit l }
    ensures { EdgePut n l direction.v lines.old terms.old lines.new terms.new }
{
    trapezoids_code::store_line(lines, 4 * n, l);
    let k = geometry_code::coefficients_of(l);
    integer_code::put_number(terms, 4 * n, k.dx);
    integer_code::put_number(terms, 4 * n + 1, k.dy);
    integer_code::put_number(terms, 4 * n + 2, k.offset);
    integer_code::put_number(terms, 4 * n + 3, direction);
}

// The line from the vertex whose words start at a to the one whose words start at b.
fn line_between(words: &[i32], a: usize, b: usize) -> Line
    requires { (a + 1 < length words.now) × (b + 1 < length words.now) }
    ensures { result ≡ through (vertex_at words.now a) (vertex_at words.now b) }
{
    Line {
        x1: words[a],
        y1: words[a + 1],
        x2: words[b],
        y2: words[b + 1],
    }
}

// The edge between two vertices after the first n, unless its ends have equal x; how many there are then.
fn add_edge(
    words: &[i32],
    a: usize,
    b: usize,
    lines: &mut [i32],
    terms: &mut [i64],
    n: usize,
) -> usize
    requires { TakesEdge words.now a b n lines.old terms.old }
    ensures { Lengthened n lines.old terms.old (edge (vertex_at words.now a) (vertex_at words.now b)) result lines.new terms.new }
{
    let x = integer_code::get(words, a);
    let y = integer_code::get(words, b);
    if integer_code::less(x, y) {
        let l = line_between(words, a, b);
        put_edge(lines, terms, n, l, integer_code::of(1));
        n + 1
    } else if integer_code::less(y, x) {
        let l = line_between(words, b, a);
        put_edge(lines, terms, n, l, integer_code::of(-1));
        n + 1
    } else {
        n
    }
}

// The edges of the polygon whose vertices' coordinates are the words; how many there are.
pub fn edges_into(words: &[i32], lines: &mut [i32], terms: &mut [i64]) -> usize
    requires { PolygonOnGrid coordinate_limit (polygon_of words.now) × (length words.now ≤ 64) × (length lines.old ≡ 128) × (length terms.old ≡ 128) }
    ensures { EdgesOf (polygon_of words.now) result lines.new terms.new }
{
    let vertices = words.len() / 2;
    if vertices == 0 {
        return 0;
    }
    let last = vertices - 1;
    let mut m = 0;
    for k in 0..last {
        m = add_edge(words, 2 * k, 2 * k + 2, lines, terms, m);
    }
    add_edge(words, 2 * last, 0, lines, terms, m)
}
