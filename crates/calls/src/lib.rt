// What the public functions answer, and the limits that they go by.
#![tactic(auto)]

// Grid coordinates run from -PLATE_LIMIT to PLATE_LIMIT.
pub const PLATE_LIMIT: u32 = 2048;

// Denominators of points run from 1 to MAX_DENOMINATOR.
pub const MAX_DENOMINATOR: u32 = 1024;

// What `fracture` answers: the refusal's number and place, or the trapezoids written and the overlays made, which are none.
#[derive(Clone, Copy)]
pub enum Fractured {
    Refused { number: u32, place: usize },
    Done { pieces: usize, overlays: usize },
}

// What `combine` answers: the refusal's number and place, or the trapezoids written and the overlays made.
#[derive(Clone, Copy)]
pub enum Combined {
    Refused { number: u32, place: usize },
    Done { pieces: usize, overlays: usize },
}

// The same of `deoverlap`.
#[derive(Clone, Copy)]
pub enum Deoverlapped {
    Refused { number: u32, place: usize },
    Done { pieces: usize, overlays: usize },
}

// What `equal` answers. Operand 0 (paper 01: side 0): the first layer has points that the second has not; operand 1: only the second has.
#[derive(Clone, Copy)]
pub enum Equality {
    Refused { number: u32, place: usize },
    Same { overlays: usize },
    Differs { operand: u32, overlays: usize },
}

// What `contains` answers.
#[derive(Clone, Copy)]
pub enum Containment {
    Refused { number: u32, place: usize },
    Yes,
    No,
}

// What `components` answers: the refusal's number and place, or the number of components.
#[derive(Clone, Copy)]
pub enum Connected {
    Refused { number: u32, place: usize },
    Done { components: usize },
}

// What `transistors` answers: the refusal's number and place, or the triples listed and the overlays made.
#[derive(Clone, Copy)]
pub enum Extracted {
    Refused { number: u32, place: usize },
    Done { triples: usize, overlays: usize },
}
