// Trapezoids that touch, and the component numbers of a layer of fit trapezoids.
#![tactic(auto)]

ghost use Rattle.std.specs.Prelude.{◌≡◌, ◌&&◌, ◌<◌, ◌≤◌, length};
ghost use Rattle.lists.specs.Lists.{All};
ghost use Rattle.records.specs.Limits.{max_records};
ghost use Rattle.records.specs.Records.{record_at, count};
ghost use Rattle.geometry.specs.Limit.{coordinate_limit, OnGrid};
ghost use Rattle.geometry.specs.Positions.{position};
ghost use Rattle.geometry.specs.Fitness.{FitFor};
ghost use Rattle.geometry.specs.Trapezoids.{trapezoid_codec, layer_of};
ghost use Rattle.geometry.specs.Ranges.{crossing};
ghost use Rattle.connectivity.specs.Touching.{not_above, touches_right, touches_along, lower_at, touches_upright, touches};
ghost use Rattle.connectivity.specs.Components.{own_numbers, relabelled, joined_numbers, joined_first, joined_all, owners, touching_at, component_numbers, component_count};
ghost use Rattle.boxes.specs.Boxes.{box_of};
ghost use Rattle.geometry_code.specs.Code.{fraction_of, SmallPosition};
ghost use Rattle.trapezoids_code.specs.Placed.{Pair, PlacedAs, CommonLeft, CommonRight};
ghost use Rattle.overlaps_code.specs.Code.{cross_between};
ghost use Rattle.boxes_code.specs.Code.{BoxesOf, BoxedLayer};
ghost use Rattle.connectivity_code.specs.Code.{Numbering};

use boxes::Box;
use geometry::{Horizontal, Line, Placed, Position, Trapezoid};

// Right of a position a line is at or below another.
#[tactic(auto, unfolding(connectivity::specs::Touching::not_above))]
fn not_above(l: Line, m: Line, p: Position) -> bool
    requires { OnGrid coordinate_limit l × OnGrid coordinate_limit m × SmallPosition p }
    ensures { result ≡ not_above (fraction_of p) l m }
{
    !geometry_code::is_below(m, l, p)
}

// Right of a position each bottom is at or below the other's top.
#[tactic(auto, unfolding(connectivity::specs::Touching::touches_right))]
fn touches_right(a: Trapezoid, b: Trapezoid, p: Position) -> bool
    requires { FitFor coordinate_limit a × FitFor coordinate_limit b × SmallPosition p }
    ensures { result ≡ touches_right a b (fraction_of p) }
{
    not_above(a.bottom, b.top, p) && not_above(b.bottom, a.top, p)
}

// The two lines cross strictly inside the common range, and right of there the trapezoids touch.
fn touches_from(a: Trapezoid, b: Trapezoid, l: Line, m: Line, lo: Position, hi: Position) -> bool
    requires { FitFor coordinate_limit a × FitFor coordinate_limit b × OnGrid coordinate_limit l × OnGrid coordinate_limit m × SmallPosition lo × SmallPosition hi }
    ensures { result ≡ cross_between (fraction_of lo) (fraction_of hi) (crossing l m) && touches_right a b (position (crossing l m)) }
{
    overlaps_code::crossing_between(l, m, lo, hi).is_some_and(|p| touches_right(a, b, p))
}

// Whether two trapezoids touch whose common range has a length, from `lo` to `hi`.
#[tactic(auto, unfolding(connectivity::specs::Touching::touches_along, connectivity::specs::Touching::touches_from, overlay::specs::Overlaps::crosses_in_common, overlaps_code::specs::Code::cross_between))]
fn touches_along(a: Placed, b: Placed, lo: Position, hi: Position) -> bool
    requires { Pair a b × CommonLeft a b lo × CommonRight a b hi }
    ensures { result ≡ touches_along a.shape b.shape }
{
    let s = a.shape;
    let t = b.shape;
    touches_right(s, t, lo)
        || touches_from(s, t, s.bottom, t.top, lo, hi)
        || touches_from(s, t, s.top, t.bottom, lo, hi)
}

// At a position a line is below another.
#[tactic(auto, unfolding(connectivity::specs::Touching::lower_at))]
fn lower_at(l: Line, m: Line, x: Position) -> bool
    requires { OnGrid coordinate_limit l × OnGrid coordinate_limit m × SmallPosition x }
    ensures { result ≡ lower_at (fraction_of x) l m }
{
    geometry_code::heights_at(l, m, x).is_lt()
}

// At a position each bottom is below the other's top and below its own.
#[tactic(auto, unfolding(connectivity::specs::Touching::touches_upright))]
fn touches_upright(a: Trapezoid, b: Trapezoid, x: Position) -> bool
    requires { FitFor coordinate_limit a × FitFor coordinate_limit b × SmallPosition x }
    ensures { result ≡ touches_upright a b (fraction_of x) }
{
    lower_at(a.bottom, b.top, x)
        && lower_at(b.bottom, a.top, x)
        && lower_at(a.bottom, a.top, x)
        && lower_at(b.bottom, b.top, x)
}

// Whether the closed trapezoids share at least two different rational points.
pub fn touching(a: Placed, b: Placed) -> bool
    requires { Pair a b }
    ensures { result ≡ touches a.shape b.shape }
{
    let lo = trapezoids_code::common_left(a, b);
    let hi = trapezoids_code::common_right(a, b);
    match geometry_code::compare(lo, hi) {
        Horizontal::Left => touches_along(a, b, lo, hi),
        Horizontal::Level => touches_upright(a.shape, b.shape, lo),
        Horizontal::Right => false,
    }
}

// Whether a trapezoid touches the one with number j of a layer.
fn touching_at(layer: &[i32], a: Placed, j: usize) -> bool
    requires { All (FitFor coordinate_limit) (layer_of layer.now) × (j < count trapezoid_codec layer.now) × PlacedAs a.shape a }
    ensures { result ≡ touches a.shape (record_at trapezoid_codec layer.now j) }
{
    touching(a, trapezoids_code::placed_at(layer, j))
}

// Each its own number: 0, 1 and so on.
#[tactic(auto, unfolding(connectivity::specs::Components::own_numbers), using(crate::proofs::Loops::number_turn))]
fn number_each(numbers: &mut [u32])
    requires { length numbers.old ≤ max_records }
    ensures { numbers.new ≡ own_numbers (length numbers.old) }
{
    for (i, n) in numbers.iter_mut().enumerate() {
        *n = i as u32;
    }
}

// Each `from` becomes `to`. Each is stored, whatever it is: a store under a condition is slower.
#[tactic(auto, unfolding(connectivity::specs::Components::relabelled), using(crate::proofs::Loops::relabel_from, crate::proofs::Loops::relabel_other))]
fn relabel(numbers: &mut [u32], from: u32, to: u32)
    ensures { numbers.new ≡ relabelled from to numbers.old }
{
    for n in numbers.iter_mut() {
        *n = if *n == from { to } else { *n };
    }
}

// The numbers of i and j become one: whoever has the greater gets the lesser.
#[tactic(auto, unfolding(connectivity::specs::Components::joined_numbers))]
fn join(numbers: &mut [u32], i: usize, j: usize)
    requires { (i < length numbers.old) × (j < length numbers.old) }
    ensures { numbers.new ≡ joined_numbers i j numbers.old }
{
    let a = numbers[i];
    let b = numbers[j];
    relabel(numbers, a.max(b), a.min(b));
}

// The trapezoid with number i of a layer is joined with each before it that it touches. Where the boxes are apart it does not, and
// where the numbers agree nothing is to be done.
fn join_earlier(layer: &[i32], boxes: &[i64], a: Placed, e: Box, i: usize, numbers: &mut [u32])
    requires numbering { Numbering layer.now numbers.old × BoxesOf layer.now boxes.now }
    requires i_bound { (i < count trapezoid_codec layer.now) × PlacedAs (record_at trapezoid_codec layer.now i) a × (e ≡ box_of (record_at trapezoid_codec layer.now i)) }
    ensures { numbers.new ≡ joined_first (touching_at (layer_of layer.now)) i i numbers.old }
{
    let mut j = boxes_code::next_near(e, boxes, 0, i);
    while j < i {
        if numbers[i] != numbers[j] && touching_at(layer, a, j) {
            join(numbers, i, j);
        }
        j = boxes_code::next_near(e, boxes, j + 1, i);
    }
}

// Each trapezoid of a layer in turn is joined with those before it that it touches.
#[tactic(auto, unfolding(connectivity::specs::Components::joined_all), using(crate::proofs::Loops::all_suc))]
fn join_all(layer: &[i32], boxes: &[i64], numbers: &mut [u32])
    requires { Numbering layer.now numbers.old × BoxesOf layer.now boxes.now }
    ensures { numbers.new ≡ joined_all (touching_at (layer_of layer.now)) (count trapezoid_codec layer.now) numbers.old }
{
    for i in 0..layer.len() / records::MEMORY_WIDTH {
        let a = trapezoids_code::placed_at(layer, i);
        let e = boxes_code::load_box(boxes, i);
        join_earlier(layer, boxes, a, e, i, numbers);
    }
}

// How many have their own number.
fn count_own(numbers: &[u32]) -> usize
    requires { length numbers.now ≤ max_records }
    ensures value { result ≡ length (owners numbers.now (length numbers.now)) }
    ensures upper_bound { result ≤ length numbers.now }
{
    numbers
        .iter()
        .enumerate()
        .filter(|(i, n)| **n as usize == *i)
        .count()
}

// The component numbers of a layer of fit trapezoids, by its boxes; answers the number of components.
pub fn components_boxed(layer: &[i32], boxes: &[i64], numbers: &mut [u32]) -> usize
    requires { BoxedLayer layer.now boxes.now × (length numbers.old ≡ count trapezoid_codec layer.now) }
    ensures numbers_after { numbers.new ≡ component_numbers (layer_of layer.now) }
    ensures value { (result ≡ component_count (layer_of layer.now)) × (result ≤ max_records) }
{
    number_each(numbers);
    join_all(layer, boxes, numbers);
    count_own(numbers)
}
