// The set of source layers of what is in hand, written over the empty sets of its parts.
#![tactic(auto)]

ghost use Rattle.std.specs.Prelude.{◌≡◌, length};
ghost use Rattle.overlay.specs.Overlay.{overlay, tagged};
ghost use Rattle.sources.specs.Sourced.{sourced_codec, bearing};
ghost use Rattle.trapezoids_code.specs.Placed.{Pair};
ghost use Rattle.trapezoids_code.specs.Tails.{Borrowed, FilledBy};
ghost use Rattle.bearing_code.specs.Code.{Fits, borne};

use boolean::{Folded, NoRoom};
use geometry::Placed;

// Of the trapezoids that a fold has written, if there was room.
pub fn bear(f: Result<Folded, NoRoom>, sources: i32, out: &mut [i32])
    requires { Fits f (length out.old) }
    ensures { out.new ≡ borne f sources out.old }
{
    if let Ok(f) = f {
        sources_code::set_sources(out, f.trapezoids, sources);
    }
}

// The parts common to a and b, with this set.
pub fn common_parts(
    a: Placed,
    b: Placed,
    sources: i32,
    out: &mut [i32],
    room: usize,
) -> Option<usize>
    requires { Pair a b × Borrowed out.old room }
    ensures { FilledBy sourced_codec (length out.old) room (bearing sources (tagged 3 (overlay a.shape b.shape))) result out.new }
{
    let n = overlay_code::overlay_into(a, b, 3, out, room)?;
    sources_code::set_sources(out, n, sources);
    Some(n)
}
