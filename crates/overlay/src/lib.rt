// What is held while two trapezoids are overlaid (paper 01: pair cut).
#![tactic(auto)]

use geometry::Meeting;
use std::cmp::Ordering;

// A column: the numbers of the four sides in their vertical order, carried from column to column, and whether the column lies in the range of the
// one trapezoid and of the other. Side 0 is the first trapezoid's bottom, 1 its top, 2 the second one's bottom, 3 its top.
#[derive(Clone, Copy)]
pub struct Column {
    pub order: [usize; 4],
    pub in_a: bool,
    pub in_b: bool,
}

// Where the sides of the one trapezoid meet those of the other, worked out once for a pair: each two sides by their numbers.
#[derive(Clone, Copy)]
pub struct Meetings {
    pub m02: Meeting,
    pub m03: Meeting,
    pub m12: Meeting,
    pub m13: Meeting,
}

// The orders of these sides right of a position.
#[derive(Clone, Copy)]
pub struct Orders {
    pub o02: Ordering,
    pub o03: Ordering,
    pub o12: Ordering,
    pub o13: Ordering,
}

// Which of each two sides is in front of the other in the order of a column.
#[derive(Clone, Copy)]
pub struct Fronts {
    pub f01: bool,
    pub f02: bool,
    pub f03: bool,
    pub f12: bool,
    pub f13: bool,
    pub f23: bool,
}
