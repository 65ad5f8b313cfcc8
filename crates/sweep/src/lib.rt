// What is held of an event.
#![tactic(auto)]

use geometry::{Base, Position};

// An event (paper 01: stop): its name and its position.
#[derive(Clone, Copy)]
pub struct Event {
    pub base: Base,
    pub at: Position,
}
