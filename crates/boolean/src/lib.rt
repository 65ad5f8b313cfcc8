// What folds over layers of trapezoids answer.
#![tactic(auto)]

// What a fold did, where there was room: how many trapezoids it wrote, and the number of overlays that it made.
#[derive(Clone, Copy)]
pub struct Folded {
    pub trapezoids: usize,
    pub overlays: usize,
}

// A fold for whose result there was no room: the number of overlays that it had made by then.
#[derive(Clone, Copy)]
pub struct NoRoom {
    pub overlays: usize,
}

// What the equality test answers: there was no room; no trapezoid is left of either difference; or some are left of the one
// with operand 0 first (the first layer minus the second), or else of the one with operand 1 first.
#[derive(Clone, Copy)]
pub enum Compared {
    NoRoom(usize),
    Same(usize),
    Differs { operand: u32, overlays: usize },
}
