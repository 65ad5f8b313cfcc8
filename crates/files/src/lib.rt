// Polygon files and layer files: how they are made up, and what a reader and a writer of layers answer.
#![tactic(auto)]

// The editions of the exchange format: a polygon file of the new one may leave lengths out.
#[derive(Clone, Copy)]
pub enum Edition {
    First,
    New,
}

// How a directory and its body may be: the words of a unit of the body, the most pairs, the least and the most units of a pair, the
// most units in all, and whether a length 0 stands for the length found from the next offset.
#[derive(Clone, Copy)]
pub struct Format {
    pub unit: usize,
    pub count: usize,
    pub least: usize,
    pub most: usize,
    pub total: usize,
    pub found: bool,
}

// A directory that rows 5 and 6 let pass: its pairs, and the units of the body.
#[derive(Clone, Copy)]
pub struct Directory {
    pub count: usize,
    pub total: usize,
}

// A pair of the directory, in units of the body.
#[derive(Clone, Copy)]
pub struct Extent {
    pub offset: usize,
    pub length: usize,
}

// What `read_layers` answers: the refusal's number and place, or the trapezoids read and the overlays made, which are none.
#[derive(Clone, Copy)]
pub enum LayersRead {
    Refused { number: u32, place: usize },
    Done { pieces: usize, overlays: usize },
}

// The same of `write_layers`.
#[derive(Clone, Copy)]
pub enum LayersWritten {
    Refused { number: u32, place: usize },
    Done { pieces: usize, overlays: usize },
}
