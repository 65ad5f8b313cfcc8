// Arrays in order: definitions and laws only. A search answers as std's do: `Ok(i)` in the place of number i, with which it is level, or `Err(i)`
// before number i.
#![tactic(auto)]
