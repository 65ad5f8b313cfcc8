// The sizes that layers keep to.
#![tactic(auto)]

// Words of a trapezoid in a layer file, and in memory, where one more has the set of its source layers.
pub const FILE_WIDTH: usize = 24;

pub const MEMORY_WIDTH: usize = FILE_WIDTH + 1;

// Trapezoids of a layer.
pub const MAX_RECORDS: usize = 512;

// Words of a layer of so many.
pub const MAX_WORDS: usize = MEMORY_WIDTH * MAX_RECORDS;
