// Events of a polygon: marks of vertices, spans of lines, and crossings strictly inside them.
#![tactic(auto)]

ghost use Rattle.std.specs.Prelude.{◌≡◌, ◌≤◌, nat_abs};
ghost use Rattle.geometry.specs.Limit.{coordinate_limit, OnGrid};
ghost use Rattle.sweep.specs.Segments.{spans, inside};
ghost use Rattle.fracture.specs.Polygons.{whole};
ghost use Rattle.fracture.specs.Fracture.{mark};
ghost use Rattle.geometry_code.specs.Code.{fraction_of, SmallPosition};
ghost use Rattle.polygon_events_code.specs.Code.{PlacedAt, MarkOf, SpanOf, line_segment, CrossingInside};

use fracture::Span;
use geometry::{Base, Line, Position};
use integer::Int;
use sweep::Event;

// The position x.
pub fn whole_position(x: Int) -> Position
    requires { nat_abs x.v ≤ coordinate_limit }
    ensures { PlacedAt (whole x.v) result }
{
    Position {
        num: x,
        den: integer_code::of(1),
    }
}

// The second line of the mark of a vertex position.
fn mark_line(x: Int, limit: u32) -> Line
    requires { (nat_abs x.v ≤ limit) × (limit ≤ coordinate_limit) }
    ensures { result ≡ (mark limit x.v).second }
{
    let one = integer_code::of(1);
    if integer_code::less(x, integer_code::natural(limit)) {
        Line {
            x1: integer_code::narrow(x),
            y1: 0,
            x2: integer_code::narrow(integer_code::add(x, one)),
            y2: 1,
        }
    } else {
        Line {
            x1: integer_code::narrow(integer_code::sub(x, one)),
            y1: 1,
            x2: integer_code::narrow(x),
            y2: 0,
        }
    }
}

// The event at a vertex position.
pub fn mark_at(x: Int, limit: u32) -> Event
    requires { (nat_abs x.v ≤ limit) × (limit ≤ coordinate_limit) }
    ensures { MarkOf limit x.v result }
{
    let axis = Line {
        x1: 0,
        y1: 0,
        x2: 1,
        y2: 0,
    };
    Event {
        base: Base {
            first: axis,
            second: mark_line(x, limit),
        },
        at: whole_position(x),
    }
}

fn span_of(l: Line) -> Span
    requires { OnGrid coordinate_limit l }
    ensures { SpanOf l result }
{
    Span {
        from: whole_position(integer_code::widen(l.x1)),
        to: whole_position(integer_code::widen(l.x2)),
    }
}

// Whether a position is strictly inside a line's span.
fn is_inside(p: Position, l: Line) -> bool
    requires { SmallPosition p × OnGrid coordinate_limit l }
    ensures { result ≡ inside (fraction_of p) (line_segment l) }
{
    let s = span_of(l);
    geometry_code::is_left(geometry_code::compare(s.from, p))
        && geometry_code::is_left(geometry_code::compare(p, s.to))
}

// Whether a line's span holds a position.
pub fn is_spanning(p: Position, l: Line) -> bool
    requires { SmallPosition p × OnGrid coordinate_limit l }
    ensures { result ≡ spans (fraction_of p) (line_segment l) }
{
    let s = span_of(l);
    !geometry_code::is_left(geometry_code::compare(p, s.from))
        && geometry_code::is_left(geometry_code::compare(p, s.to))
}

// Where two lines cross strictly inside both spans, if they do.
pub fn crossing_inside(l: Line, m: Line) -> Option<Position>
    requires { OnGrid coordinate_limit l × OnGrid coordinate_limit m }
    ensures { CrossingInside l m result }
{
    let p = geometry_code::crossing_of(l, m)?;
    (is_inside(p, l) && is_inside(p, m)).then_some(p)
}
