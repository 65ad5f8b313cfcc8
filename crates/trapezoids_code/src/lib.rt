// Trapezoids in slices of words: loaded, stored, written into a borrowed tail; with the positions of their bases, the range that two of them
// have in common, and whether a point lies in one.
#![tactic(auto)]

ghost use Rattle.std.specs.Prelude.{◌≡◌, ◌++◌, [], ◌∷◌, ◌<◌, ◌+◌, ◌*◌, ◌≤◌, length, drop, pos};
ghost use Rattle.std.proofs.lemmas.List.Edits.{sets};
ghost use Rattle.lists.specs.Lists.{All};
ghost use Rattle.records.specs.Limits.{memory_width};
ghost use Rattle.records.specs.Records.{record_at, count};
ghost use Rattle.geometry.specs.Limit.{coordinate_limit, OnGrid};
ghost use Rattle.geometry.specs.Fitness.{FitFor};
ghost use Rattle.geometry.specs.Trapezoids.{trapezoid_codec, layer_of, lines_of, line_at, line_words, trapezoid_words, lies_in};
ghost use Rattle.geometry_code.specs.Code.{point_of, SmallPoint};
ghost use Rattle.trapezoids_code.specs.Placed.{PlacedAs, CommonLeft, CommonRight, Pair};
ghost use Rattle.trapezoids_code.specs.Tails.{Borrowed, FilledAs};

use geometry::{Base, Line, Placed, Position, Trapezoid};
use integer::Int;

// The line whose words start at a place.
pub fn load_line(s: &[i32], at: usize) -> Line
    requires { at + 4 ≤ length s.now }
    ensures { result ≡ line_at s.now at }
{
    Line {
        x1: s[at],
        y1: s[at + 1],
        x2: s[at + 2],
        y2: s[at + 3],
    }
}

// Trapezoid number i of a layer's words.
pub fn load(s: &[i32], i: usize) -> Trapezoid
    requires { memory_width * i + memory_width ≤ length s.now }
    ensures { result ≡ record_at trapezoid_codec s.now i }
{
    let at = records::MEMORY_WIDTH * i;
    Trapezoid {
        left: Base {
            first: load_line(s, at),
            second: load_line(s, at + 4),
        },
        right: Base {
            first: load_line(s, at + 8),
            second: load_line(s, at + 12),
        },
        bottom: load_line(s, at + 16),
        top: load_line(s, at + 20),
    }
}

pub fn store_line(s: &mut [i32], at: usize, l: Line)
    requires { at + 4 ≤ length s.old }
    ensures { s.new ≡ sets s.old at (line_words l) }
{
    s[at] = l.x1;
    s[at + 1] = l.y1;
    s[at + 2] = l.x2;
    s[at + 3] = l.y2;
}

// To the first record of a part of a buffer, with an empty set of source layers.
pub fn store(s: &mut [i32], t: Trapezoid)
    requires { memory_width ≤ length s.old }
    ensures { s.new ≡ (trapezoid_words t ++ (pos 0 ∷ [])) ++ drop memory_width s.old }
{
    store_line(s, 0, t.left.first);
    store_line(s, 4, t.left.second);
    store_line(s, 8, t.right.first);
    store_line(s, 12, t.right.second);
    store_line(s, 16, t.bottom);
    store_line(s, 20, t.top);
    s[records::FILE_WIDTH] = 0;
}

pub fn place(t: Trapezoid) -> Placed
    requires { FitFor coordinate_limit t }
    ensures { PlacedAs t result }
{
    Placed {
        shape: t,
        left: geometry_code::position_of(t.left),
        right: geometry_code::position_of(t.right),
    }
}

// The trapezoid with number i of a layer.
pub fn placed_at(layer: &[i32], i: usize) -> Placed
    requires { All (FitFor coordinate_limit) (layer_of layer.now) × (i < count trapezoid_codec layer.now) }
    ensures { PlacedAs (record_at trapezoid_codec layer.now i) result }
{
    place(load(layer, i))
}

// The righter of the left bases.
pub fn common_left(a: Placed, b: Placed) -> Position
    requires { Pair a b }
    ensures { CommonLeft a b result }
{
    if geometry_code::is_left(geometry_code::compare(a.left, b.left)) {
        b.left
    } else {
        a.left
    }
}

// The lefter of the right bases.
pub fn common_right(a: Placed, b: Placed) -> Position
    requires { Pair a b }
    ensures { CommonRight a b result }
{
    if geometry_code::is_left(geometry_code::compare(a.right, b.right)) {
        a.right
    } else {
        b.right
    }
}

pub fn put(t: Trapezoid, out: &mut [i32], room: usize) -> Option<usize>
    requires { Borrowed out.old room }
    ensures { FilledAs (length out.old) room (t ∷ []) result out.new }
{
    if room == 0 {
        return None;
    }
    store(out, t);
    Some(1)
}

// Whether the point (x/d, y/d) lies in a trapezoid.
pub fn contains(t: Trapezoid, x: Int, y: Int, d: Int) -> bool
    requires { All (OnGrid coordinate_limit) (lines_of t) × SmallPoint x y d }
    ensures { result ≡ lies_in (point_of x y d) t }
{
    let Some(p) = geometry_code::ratio_of(t.left.first, t.left.second) else {
        return false;
    };
    let Some(q) = geometry_code::ratio_of(t.right.first, t.right.second) else {
        return false;
    };
    let here = Position { num: x, den: d };
    !geometry_code::is_left(geometry_code::compare(here, p))
        && geometry_code::is_left(geometry_code::compare(here, q))
        && geometry_code::under(t.bottom, x, y, d)
        && !geometry_code::under(t.top, x, y, d)
}
