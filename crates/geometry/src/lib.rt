// Lines, bases, trapezoids, rational points and polygons, and what functions hold of them.
#![tactic(auto)]

use integer::Int;

// Four words, two grid points with x1 < x2.
#[derive(Clone, Copy)]
pub struct Line {
    pub x1: i32,
    pub y1: i32,
    pub x2: i32,
    pub y2: i32,
}

// Two lines that cross: the crossing's horizontal position.
#[derive(Clone, Copy)]
pub struct Base {
    pub first: Line,
    pub second: Line,
}

// Paper 01's piece: 24 words, six lines.
#[derive(Clone, Copy)]
pub struct Trapezoid {
    pub left: Base,
    pub right: Base,
    pub bottom: Line,
    pub top: Line,
}

// A vertex of a polygon.
#[derive(Clone, Copy)]
pub struct Vertex {
    pub x: i32,
    pub y: i32,
}

// A line's words as numbers.
#[derive(Clone, Copy)]
pub struct Corners {
    pub x1: Int,
    pub y1: Int,
    pub x2: Int,
    pub y2: Int,
}

// A line's three numbers: dx·y = dy·x + offset on it.
#[derive(Clone, Copy)]
pub struct Coefficients {
    pub dx: Int,
    pub dy: Int,
    pub offset: Int,
}

// Two lines' determinant and numerator: they have equal heights at x where det·x = numer.
#[derive(Clone, Copy)]
pub struct Meeting {
    pub det: Int,
    pub numer: Int,
}

// A horizontal position num/den; den is not zero, of either sign.
#[derive(Clone, Copy)]
pub struct Position {
    pub num: Int,
    pub den: Int,
}

// How one base or position stands to another.
#[derive(Clone, Copy)]
pub enum Horizontal {
    Left,
    Level,
    Right,
}

// A trapezoid with the positions of its bases.
#[derive(Clone, Copy)]
pub struct Placed {
    pub shape: Trapezoid,
    pub left: Position,
    pub right: Position,
}

// What a check answers where it does not let pass: the number of the row that refuses, and the place.
#[derive(Clone, Copy)]
pub struct Refusal {
    pub number: u32,
    pub place: usize,
}
