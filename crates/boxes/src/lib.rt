// Boxes in whole numbers round trapezoids, and the tests by which two boxes have nothing in common: definitions and laws only.
#![tactic(auto)]

use geometry::Placed;
use integer::Int;

// All four edges belong to it.
#[derive(Clone, Copy)]
pub struct Box {
    pub left: Int,
    pub right: Int,
    pub bottom: Int,
    pub top: Int,
}

// What a search by boxes finds: how many trapezoids of a layer come before it, and itself, with the positions of its bases.
#[derive(Clone, Copy)]
pub struct Found {
    pub before: usize,
    pub placed: Placed,
}

// Positions up to which a line's height is worked out, and what stands for no end upward.
pub const NEAR: u32 = 1073741824;

pub const ENDLESS: i64 = 2251799813685248;

// A layer of at most so many trapezoids is small. The words that the boxes of a small layer take, and those of any.
pub const FEW: usize = 16;

pub const FEW_WORDS: usize = 64;

pub const MOST_WORDS: usize = 2048;
