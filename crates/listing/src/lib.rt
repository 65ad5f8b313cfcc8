// The sizes of the texts that the lister prints.
#![tactic(auto)]

// The bytes that are enough for a listing of 512 records, and for a refusal's line.
pub const LISTING_ROOM: usize = 147468;

pub const REFUSAL_ROOM: usize = 46;
