// Whether two trapezoids overlap (paper 01: pair cut), by where their sides meet.
#![tactic(auto)]

ghost use Rattle.std.specs.Prelude.{◌≡◌};
ghost use Rattle.geometry.specs.Limit.{coordinate_limit, OnGrid};
ghost use Rattle.overlay.specs.Overlaps.{overlaps};
ghost use Rattle.geometry_code.specs.Code.{fraction_of, SmallMeeting, SmallPosition, SmallCrossing};
ghost use Rattle.trapezoids_code.specs.Placed.{Pair};
ghost use Rattle.overlaps_code.specs.Code.{CrossingBetween, MeetingBetween, OverlapRightBy, OverlapFromBy, OverlapsBy};

use geometry::{Line, Meeting, Placed, Position};

// Right of a position each bottom is below the other's top. m: the first one's bottom with the other's top; k: its top with the other's bottom.
fn overlap_right(m: Meeting, k: Meeting, p: Position) -> bool
    requires { SmallMeeting m × SmallMeeting k × SmallPosition p }
    ensures { OverlapRightBy m k (fraction_of p) result }
{
    geometry_code::order_right(m, p).is_lt() && geometry_code::order_right(k, p).is_gt()
}

// Where two lines with this meeting cross strictly between two positions, if they do.
pub fn meeting_between(k: Meeting, lo: Position, hi: Position) -> Option<Position>
    requires { SmallMeeting k × SmallPosition lo × SmallPosition hi }
    ensures meeting_between { MeetingBetween (fraction_of lo) (fraction_of hi) k result }
    ensures small { SmallCrossing result }
{
    let p = geometry_code::crossing_by(k)?;
    if geometry_code::is_left(geometry_code::compare(lo, p))
        && geometry_code::is_left(geometry_code::compare(p, hi))
    {
        Some(p)
    } else {
        None
    }
}

// The same of the lines.
pub fn crossing_between(l: Line, m: Line, lo: Position, hi: Position) -> Option<Position>
    requires { OnGrid coordinate_limit l × OnGrid coordinate_limit m × SmallPosition lo × SmallPosition hi }
    ensures { CrossingBetween (fraction_of lo) (fraction_of hi) l m result }
{
    meeting_between(geometry_code::meeting_of(l, m), lo, hi)
}

// The lines of the meeting j cross strictly between two positions, and right of there the trapezoids overlap.
fn overlap_from(m: Meeting, k: Meeting, j: Meeting, lo: Position, hi: Position) -> bool
    requires { SmallMeeting m × SmallMeeting k × SmallMeeting j × SmallPosition lo × SmallPosition hi }
    ensures { OverlapFromBy m k j (fraction_of lo) (fraction_of hi) result }
{
    meeting_between(j, lo, hi).is_some_and(|p| overlap_right(m, k, p))
}

// Whether two trapezoids with a common range from lo to hi overlap, by the same meetings.
pub fn overlapping_by(m: Meeting, k: Meeting, lo: Position, hi: Position) -> bool
    requires { SmallMeeting m × SmallMeeting k × SmallPosition lo × SmallPosition hi }
    ensures { OverlapsBy m k (fraction_of lo) (fraction_of hi) result }
{
    overlap_right(m, k, lo) || overlap_from(m, k, m, lo, hi) || overlap_from(m, k, k, lo, hi)
}

// Whether a rational point lies in both trapezoids.
pub fn overlapping(a: Placed, b: Placed) -> bool
    requires { Pair a b }
    ensures { result ≡ overlaps a.shape b.shape }
{
    let lo = trapezoids_code::common_left(a, b);
    let hi = trapezoids_code::common_right(a, b);
    geometry_code::is_left(geometry_code::compare(lo, hi))
        && overlapping_by(
            geometry_code::meeting_of(a.shape.bottom, b.shape.top),
            geometry_code::meeting_of(a.shape.top, b.shape.bottom),
            lo,
            hi,
        )
}
