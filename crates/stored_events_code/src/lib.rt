// The events of a polygon, found once and put into arrays in order: numerators, denominators and names.
#![tactic(auto)]

ghost use Rattle.std.specs.Prelude.{◌≡◌, ◌+◌, ◌*◌, ◌<◌, ◌≤◌, length, pos, nat_abs};
ghost use Rattle.geometry.specs.Limit.{coordinate_limit, OnGrid};
ghost use Rattle.geometry.specs.Polygons.{PolygonOnGrid};
ghost use Rattle.geometry_code.specs.Polygons.{polygon_of};
ghost use Rattle.sorting_code.specs.Entries.{entry_at, Stored, Room};
ghost use Rattle.polygon_edges_code.specs.Edges.{LinesHeld};
ghost use Rattle.polygon_events_code.specs.Code.{EventOf};
ghost use Rattle.stored_events_code.specs.Events.{named, Valid, Wide, Crossed, crossings_from, PairAdded, Entered};

use geometry::{Base, Line, Position};
use integer::Int;
use sweep::Event;

// The crossing of two lines, if they cross strictly inside both spans, put into its place with a name; how many events there are then.
fn add_pair(
    l: Line,
    m: Line,
    id: u32,
    num: &mut [i64],
    den: &mut [i64],
    name: &mut [u32],
    n: usize,
) -> usize
    requires { OnGrid coordinate_limit l × OnGrid coordinate_limit m × Stored n num.old den.old × Room n num.old den.old name.old }
    ensures { PairAdded l m id n num.old den.old name.old result num.new den.new name.new }
{
    let Some(p) = polygon_events_code::crossing_inside(l, m) else {
        return n;
    };
    sorting_code::add_entry(num, den, name, n, p, id)
}

fn pair_name(i: usize, j: usize) -> u32
    requires { (i < 32) × (j < 32) }
    ensures { result ≡ 32 * i + j }
{
    (32 * i + j) as u32
}

// The crossings of edge number i with those of higher numbers.
fn add_row(
    lines: &[i32],
    edges: usize,
    i: usize,
    num: &mut [i64],
    den: &mut [i64],
    name: &mut [u32],
    n: usize,
) -> usize
    requires { LinesHeld edges lines.now × (i < edges) × Crossed lines.now (crossings_from edges lines.now (i + 1)) n num.old den.old name.old }
    ensures { Crossed lines.now (crossings_from edges lines.now i) result num.new den.new name.new }
{
    let d = polygon_edges_code::line_at(lines, i);
    let mut k = n;
    for j in (i + 1..edges).rev() {
        let e = polygon_edges_code::line_at(lines, j);
        k = add_pair(d, e, pair_name(i, j), num, den, name, k);
    }
    k
}

// All crossings.
fn add_rows(
    lines: &[i32],
    edges: usize,
    num: &mut [i64],
    den: &mut [i64],
    name: &mut [u32],
) -> usize
    requires { LinesHeld edges lines.now × Wide num.old den.old name.old }
    ensures { Crossed lines.now (crossings_from edges lines.now 0) result num.new den.new name.new }
{
    let mut n = 0;
    for i in (0..edges).rev() {
        n = add_row(lines, edges, i, num, den, name, n);
    }
    n
}

// All events: the crossings of the edges, and the marks of the vertices whose coordinates are the words.
pub fn add_events(
    words: &[i32],
    lines: &[i32],
    edges: usize,
    num: &mut [i64],
    den: &mut [i64],
    name: &mut [u32],
) -> usize
    requires { PolygonOnGrid coordinate_limit (polygon_of words.now) × (length words.now ≤ 64) × LinesHeld edges lines.now × Wide num.old den.old name.old }
    ensures { Entered (polygon_of words.now) edges lines.now result num.new den.new name.new }
{
    let mut n = add_rows(lines, edges, num, den, name);
    for k in (0..words.len() / 2).rev() {
        let x = integer_code::get(words, 2 * k);
        let p = polygon_events_code::whole_position(x);
        n = sorting_code::add_entry(num, den, name, n, p, 1024);
    }
    n
}

// The base with a name; x is the position of a mark.
fn base_named(lines: &[i32], limit: u32, x: Int, id: u32) -> Base
    requires { (length lines.now ≡ 128) × (limit ≤ coordinate_limit) × (1024 ≤ id → nat_abs x.v ≤ limit) }
    ensures { result ≡ named limit lines.now (record { num = x.v; den = pos 1; name = id }) }
{
    if id < 1024 {
        Base {
            first: polygon_edges_code::line_at(lines, (id / 32) as usize),
            second: polygon_edges_code::line_at(lines, (id % 32) as usize),
        }
    } else {
        polygon_events_code::mark_at(x, limit).base
    }
}

// Event number i.
pub fn event_number(
    lines: &[i32],
    limit: u32,
    num: &[i64],
    den: &[i64],
    name: &[u32],
    i: usize,
) -> Event
    requires { (length lines.now ≡ 128) × (limit ≤ coordinate_limit) × Wide num.now den.now name.now × (i < 528) × Valid limit lines.now (entry_at num.now den.now name.now i) }
    ensures { (result.base ≡ named limit lines.now (entry_at num.now den.now name.now i)) × EventOf result }
{
    let x = integer_code::get_number(num, i);
    Event {
        base: base_named(lines, limit, x, name[i]),
        at: Position {
            num: x,
            den: integer_code::get_number(den, i),
        },
    }
}
