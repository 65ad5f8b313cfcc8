// What is held while a polygon is fractured (paper 01: cutting).
#![tactic(auto)]

use geometry::Position;

// From the smaller x to the larger.
#[derive(Clone, Copy)]
pub struct Span {
    pub from: Position,
    pub to: Position,
}
