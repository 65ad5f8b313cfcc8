// Transistors from three layers: what the functions that look for them answer, where there was room.
#![tactic(auto)]

// Whether one shape encloses another, and the number of overlays.
#[derive(Clone, Copy)]
pub struct Enclosure {
    pub encloses: bool,
    pub overlays: usize,
}

// The triples written to a list: how many they are, and the number of overlays.
#[derive(Clone, Copy)]
pub struct Listed {
    pub triples: usize,
    pub overlays: usize,
}
