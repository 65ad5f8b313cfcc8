// Boxes of trapezoids, computed once each and held in slices of words: most pairs of trapezoids of a layer lie apart, and their boxes
// tell so with at most four comparisons.
#![tactic(auto)]

ghost use Rattle.std.specs.Prelude.{◌≡◌, T, Bool, List, ℕ, ℤ, ◌+◌, ◌*◌, ◌<◌, ◌≤◌, pos, nat_abs, length, ◌<ℤ◌};
ghost use Rattle.std.proofs.lemmas.List.Edits.{sets};
ghost use Rattle.lists.specs.Lists.{All};
ghost use Rattle.records.specs.Limits.{max_records};
ghost use Rattle.integer.specs.Integer.{limit64};
ghost use Rattle.records.specs.Records.{record_at, count};
ghost use Rattle.geometry.specs.Limit.{coordinate_limit, OnGrid};
ghost use Rattle.geometry.specs.Lines.{IsLine};
ghost use Rattle.geometry.specs.Fitness.{FitFor};
ghost use Rattle.geometry.specs.Trapezoids.{trapezoid_codec, layer_of};
ghost use Rattle.boxes.specs.Whole.{floor as floor_of, ceiling as ceiling_of};
ghost use Rattle.boxes.specs.Boxes.{box_of, boxes_apart_by, boxes_apart, boxes_disjoint};
ghost use Rattle.trapezoids_code.specs.Placed.{PlacedAs};
ghost use Rattle.boxes_code.specs.Layers.{all_fit, BoxEach, BoxEach-prop};
ghost use Rattle.boxes_code.specs.Code.{end_height, box_width, box_words, box_at, FirstBoxes, BoxesOf, BoxedLayer, RoomForBoxes, NextBox, both_small};

use boxes::Box;
use geometry::{Line, Placed};
use integer::Int;

// Words of a box in a slice.
pub const WIDTH: usize = 4;

// Words of a small layer.
pub const SMALL_WORDS: usize = records::MEMORY_WIDTH * boxes::FEW;

// A layer of fit trapezoids, at most 512, beside the boxes of all.
#[derive(Clone, Copy)]
pub struct Layer<'a> {
    pub words: &'a [i32],
    pub boxes: &'a [i64],
    pub ghost fit: { T (all_fit words.now) },
    pub ghost few: { count trapezoid_codec words.now ≤ max_records },
    pub ghost room: { box_width * count trapezoid_codec words.now ≤ length boxes.now },
    pub ghost each: { BoxEach words.now boxes.now } by { BoxEach-prop words.now boxes.now },
}

pub fn floor(n: Int, d: Int) -> Int
    requires { (nat_abs n.v + 2 < limit64) × (pos 0 <ℤ d.v) }
    ensures v_value { result.v ≡ floor_of n.v d.v }
    ensures magnitude { nat_abs result.v ≤ nat_abs n.v }
{
    Int {
        v: n.v.div_euclid(d.v),
    }
}

pub fn ceiling(n: Int, d: Int) -> Int
    requires { (nat_abs n.v + 2 < limit64) × (pos 0 <ℤ d.v) }
    ensures v_value { result.v ≡ ceiling_of n.v d.v }
    ensures magnitude { nat_abs result.v ≤ nat_abs n.v }
{
    integer_code::neg(floor(integer_code::neg(n), d))
}

// The rounded height of a line at the one whole position if it falls, and else at the other; far out, `far`.
fn end_height<F: Fn(Int, Int) -> Int>(round: F, far: i64, l: Line, falling: Int, other: Int) -> Int
    requires line { OnGrid coordinate_limit l × IsLine l }
    requires callable { (n : Int) (d : Int) → nat_abs n.v + 2 < limit64 → pos 0 <ℤ d.v → F.pre round n d }
    ensures { (r : ℤ → ℤ → ℤ) → ((n : Int) (d : Int) (m : Int) → F.post round n d m → m.v ≡ r n.v d.v) → result.v ≡ end_height r far l falling.v other.v }
{
    let k = geometry_code::coefficients_of(l);
    let x = if integer_code::less(k.dy, integer_code::of(0)) {
        falling
    } else {
        other
    };
    if fitness_code::within(x, boxes::NEAR) {
        round(
            integer_code::add(integer_code::mul(k.dy, x), k.offset),
            k.dx,
        )
    } else {
        integer_code::of(far)
    }
}

pub fn box_of(a: Placed) -> Box
    requires { PlacedAs a.shape a }
    ensures { result ≡ box_of a.shape }
{
    let left = floor(a.left.num, a.left.den);
    let right = ceiling(a.right.num, a.right.den);
    Box {
        left,
        right,
        bottom: end_height(floor, -boxes::ENDLESS, a.shape.bottom, right, left),
        top: end_height(ceiling, boxes::ENDLESS, a.shape.top, left, right),
    }
}

fn set_box(boxes: &mut [i64], i: usize, e: Box)
    requires { box_width * i + box_width ≤ length boxes.old }
    ensures { boxes.new ≡ sets boxes.old (box_width * i) (box_words e) }
{
    let at = WIDTH * i;
    integer_code::put_number(boxes, at, e.left);
    integer_code::put_number(boxes, at + 1, e.right);
    integer_code::put_number(boxes, at + 2, e.bottom);
    integer_code::put_number(boxes, at + 3, e.top);
}

// Box number i.
pub fn load_box(boxes: &[i64], i: usize) -> Box
    requires { box_width * i + box_width ≤ length boxes.now }
    ensures { result ≡ box_at boxes.now i }
{
    let at = WIDTH * i;
    Box {
        left: integer_code::get_number(boxes, at),
        right: integer_code::get_number(boxes, at + 1),
        bottom: integer_code::get_number(boxes, at + 2),
        top: integer_code::get_number(boxes, at + 3),
    }
}

// Whether one of two boxes ends before the other begins, by a test of "before".
#[tactic(auto, unfolding(boxes::specs::Boxes::boxes_apart_by))]
fn apart_by<F: Fn(Int, Int) -> bool>(before: F, e: Box, f: Box) -> bool
    requires { F.IsAlwaysCallable before }
    ensures { (t : ℤ → ℤ → Bool) → ((a : Int) (b : Int) (r : Bool) → F.post before a b r → r ≡ t a.v b.v) → result ≡ boxes_apart_by t e f }
{
    before(f.right, e.left)
        || before(e.right, f.left)
        || before(f.top, e.bottom)
        || before(e.top, f.bottom)
}

// Whether two boxes share no point, edges counted.
pub fn is_apart(e: Box, f: Box) -> bool
    ensures { result ≡ boxes_apart e f }
{
    apart_by(integer_code::less, e, f)
}

// Whether they share no point inside: edges may meet.
pub fn is_disjoint(e: Box, f: Box) -> bool
    ensures { result ≡ boxes_disjoint e f }
{
    apart_by(integer_code::at_most, e, f)
}

// The same of a box and box number i.
pub fn boxes_apart(e: Box, boxes: &[i64], i: usize) -> bool
    requires { box_width * i + box_width ≤ length boxes.now }
    ensures { result ≡ boxes_apart e (box_at boxes.now i) }
{
    is_apart(e, load_box(boxes, i))
}

pub fn boxes_disjoint(e: Box, boxes: &[i64], i: usize) -> bool
    requires { box_width * i + box_width ≤ length boxes.now }
    ensures { result ≡ boxes_disjoint e (box_at boxes.now i) }
{
    is_disjoint(e, load_box(boxes, i))
}

// The first of the boxes from number j on, before number i, that a test refuses; i if there is none. The test takes a box's number: of
// one that took two boxes the compiler made the last of its four comparisons first.
fn next_by<F: Fn(usize) -> bool>(apart: F, j: usize, i: usize) -> usize
    requires range { j ≤ i }
    requires callable { (k : ℕ) → k < i → F.pre apart k }
    ensures { (t : Box → Box → Bool) (e : Box) (d : List ℤ) → ((k : ℕ) (r : Bool) → F.post apart k r → r ≡ t e (box_at d k)) → NextBox t e d j i result }
{
    for k in j..i {
        if !apart(k) {
            return k;
        }
    }
    i
}

// The first of them that is not apart from a box.
pub fn next_near(e: Box, boxes: &[i64], j: usize, i: usize) -> usize
    requires { (j ≤ i) × (box_width * i ≤ length boxes.now) }
    ensures { NextBox boxes_apart e boxes.now j i result }
{
    next_by(|k| boxes_apart(e, boxes, k), j, i)
}

// The first of them that is not disjoint from it.
pub fn next_overlapping(e: Box, boxes: &[i64], j: usize, i: usize) -> usize
    requires { (j ≤ i) × (box_width * i ≤ length boxes.now) }
    ensures { NextBox boxes_disjoint e boxes.now j i result }
{
    next_by(|k| boxes_disjoint(e, boxes, k), j, i)
}

// The box of trapezoid number i of a layer.
fn box_at(layer: &[i32], i: usize) -> Box
    requires { All (FitFor coordinate_limit) (layer_of layer.now) × (i < count trapezoid_codec layer.now) }
    ensures { result ≡ box_of (record_at trapezoid_codec layer.now i) }
{
    box_of(trapezoids_code::placed_at(layer, i))
}

// The boxes of a layer's first trapezoids, before number `start`, are there: those of the rest.
pub fn extend_boxes(layer: &[i32], boxes: &mut [i64], start: usize)
    requires { All (FitFor coordinate_limit) (layer_of layer.now) × (start ≤ count trapezoid_codec layer.now) × FirstBoxes start layer.now boxes.old }
    ensures boxes_of { BoxesOf layer.now boxes.new }
    ensures boxes_len_unchanged { length boxes.new ≡ length boxes.old }
{
    for i in start..layer.len() / records::MEMORY_WIDTH {
        set_box(boxes, i, box_at(layer, i));
    }
}

// The box of each trapezoid of a layer.
pub fn fill_boxes(layer: &[i32], boxes: &mut [i64])
    requires { All (FitFor coordinate_limit) (layer_of layer.now) × (box_width * count trapezoid_codec layer.now ≤ length boxes.old) }
    ensures boxes_of { BoxesOf layer.now boxes.new }
    ensures boxes_len_unchanged { length boxes.new ≡ length boxes.old }
{
    extend_boxes(layer, boxes, 0);
}

// A layer with the box of each trapezoid, worked out into `boxes`.
pub fn boxed<'a>(words: &'a [i32], boxes: &'a mut [i64]) -> Layer<'a>
    requires { RoomForBoxes words.now boxes.old }
    ensures { result.words.now ≡ words.now }
{
    fill_boxes(words, boxes);
    Layer::new(words, boxes)
}

// Whether two layers are small.
pub fn both_small(first: &[i32], second: &[i32]) -> bool
    ensures { result ≡ both_small first.now second.now }
{
    first.len() <= SMALL_WORDS && second.len() <= SMALL_WORDS
}

impl<'a> Layer<'a> {
    pub fn new(words: &'a [i32], boxes: &'a [i64]) -> Layer<'a>
        requires { BoxedLayer words.now boxes.now }
        ensures { (result.words.now ≡ words.now) × (result.boxes.now ≡ boxes.now) }
    {
        Layer { words, boxes }
    }

    // How many trapezoids it has.
    pub fn count(self) -> usize
        ensures value { result ≡ count trapezoid_codec self.entry.words.now }
        ensures few { result ≤ max_records }
    {
        self.words.len() / records::MEMORY_WIDTH
    }

    // The trapezoid with number i, and the positions of its bases.
    #[tactic(auto, using(crate::proofs::BoxedLayers::fit_all))]
    pub fn placed(self, i: usize) -> Placed
        requires { i < count trapezoid_codec self.words.now }
        ensures { PlacedAs (record_at trapezoid_codec self.entry.words.now i) result }
    {
        trapezoids_code::placed_at(self.words, i)
    }

    // Its box.
    pub fn box_at(self, i: usize) -> Box
        requires { i < count trapezoid_codec self.words.now }
        ensures { result ≡ box_of (record_at trapezoid_codec self.entry.words.now i) }
    {
        load_box(self.boxes, i)
    }
}
