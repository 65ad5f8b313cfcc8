// The overlay of two trapezoids (paper 01: pair cut): the parts of the first alone, or of both, written into a borrowed tail.
#![tactic(auto)]

ghost use Rattle.std.specs.Prelude.{◌≡◌, true, map, ◌≤◌, length};
ghost use Rattle.overlay.specs.Overlay.{overlay, tagged};
ghost use Rattle.overlay.specs.Overlaps.{overlaps};
ghost use Rattle.trapezoids_code.specs.Tails.{Borrowed, FilledAs};
ghost use Rattle.trapezoids_code.specs.Placed.{Pair, CommonLeft, CommonRight};
ghost use Rattle.sorting_code.specs.Entries.{stored};
ghost use Rattle.overlaps_code.specs.Code.{MeetingsOf, Opposed};
ghost use Rattle.overlay_events_code.specs.Events.{entry_name};
ghost use Rattle.overlay_code.specs.Code.{of_first, columns_of, Standing, Ranged};

use geometry::{Meeting, Placed, Position};
use overlay::{Column, Meetings};

// The trapezoids with the tag of the columns between neighbouring events in the range of the first, from left to right.
fn fill_columns(
    a: Placed,
    b: Placed,
    m: Meetings,
    num: &[i64],
    den: &[i64],
    name: &[u32],
    count: usize,
    tag: u8,
    out: &mut [i32],
    room: usize,
) -> Option<usize>
    requires pair { Pair a b × MeetingsOf a.shape b.shape m × Standing a.shape b.shape count num.now den.now name.now × (1 ≤ tag) × Borrowed out.old room }
    requires ranged { Ranged a.shape (map (entry_name a.shape b.shape) (stored count num.now den.now name.now)) }
    ensures { FilledAs (length out.old) room (tagged tag (columns_of a.shape b.shape (map (entry_name a.shape b.shape) (stored count num.now den.now name.now)))) result out.new }
{
    let order = [0, 1, 2, 3];
    let mut c = Column {
        order,
        in_a: false,
        in_b: false,
    };
    let mut n = 0;
    for i in 0..count.saturating_sub(1) {
        let at = Position {
            num: integer_code::get_number(num, i),
            den: integer_code::get_number(den, i),
        };
        let in_b = columns_code::in_range(b, at);
        let o = columns_code::orders_at(m, at);
        c = columns_code::column_at(o, true, in_b, c);
        let Some(k) = strips_code::fill_column(
            a.shape,
            b.shape,
            tag,
            name[i],
            name[i + 1],
            o,
            c,
            &mut out[records::MEMORY_WIDTH * n..],
            room - n,
        ) else {
            out.fill(0);
            return None;
        };
        n += k;
    }
    Some(n)
}

// The trapezoids with the tag of the overlay of two that overlap, with a common range from lo to hi, by two of their meetings.
fn fill_overlapping(
    a: Placed,
    b: Placed,
    m03: Meeting,
    m12: Meeting,
    lo: Position,
    hi: Position,
    tag: u8,
    out: &mut [i32],
    room: usize,
) -> Option<usize>
    requires pair { Pair a b × Opposed a.shape b.shape m03 m12 × CommonLeft a b lo × CommonRight a b hi }
    requires shape_value { (overlaps a.shape b.shape ≡ true) × (of_first tag ≡ true) × Borrowed out.old room }
    ensures { FilledAs (length out.old) room (tagged tag (overlay a.shape b.shape)) result out.new }
{
    let m = Meetings {
        m02: geometry_code::meeting_of(a.shape.bottom, b.shape.bottom),
        m03,
        m12,
        m13: geometry_code::meeting_of(a.shape.top, b.shape.top),
    };
    let mut num = [0; 8];
    let mut den = [0; 8];
    let mut name = [0; 8];
    let count = overlay_events_code::events_into(a, b, m, lo, hi, &mut num, &mut den, &mut name);
    fill_columns(a, b, m, &num, &den, &name, count, tag, out, room)
}

// The trapezoids of the overlay of two that overlap that have the tag, of parts in the first, written into a blank tail of which `room` records
// may be filled.
pub fn overlapping_into(
    a: Placed,
    b: Placed,
    tag: u8,
    out: &mut [i32],
    room: usize,
) -> Option<usize>
    requires { Pair a b × (of_first tag ≡ true) × (overlaps a.shape b.shape ≡ true) × Borrowed out.old room }
    ensures { FilledAs (length out.old) room (tagged tag (overlay a.shape b.shape)) result out.new }
{
    let lo = trapezoids_code::common_left(a, b);
    let hi = trapezoids_code::common_right(a, b);
    let m03 = geometry_code::meeting_of(a.shape.bottom, b.shape.top);
    let m12 = geometry_code::meeting_of(a.shape.top, b.shape.bottom);
    fill_overlapping(a, b, m03, m12, lo, hi, tag, out, room)
}

// The same of any two.
pub fn overlay_into(a: Placed, b: Placed, tag: u8, out: &mut [i32], room: usize) -> Option<usize>
    requires { Pair a b × (of_first tag ≡ true) × Borrowed out.old room }
    ensures { FilledAs (length out.old) room (tagged tag (overlay a.shape b.shape)) result out.new }
{
    let lo = trapezoids_code::common_left(a, b);
    let hi = trapezoids_code::common_right(a, b);
    if geometry_code::is_left(geometry_code::compare(lo, hi)) {
        let m03 = geometry_code::meeting_of(a.shape.bottom, b.shape.top);
        let m12 = geometry_code::meeting_of(a.shape.top, b.shape.bottom);
        if overlaps_code::overlapping_by(m03, m12, lo, hi) {
            return fill_overlapping(a, b, m03, m12, lo, hi, tag, out, room);
        }
    }
    if tag == 1 {
        trapezoids_code::put(a.shape, out, room)
    } else {
        Some(0)
    }
}
