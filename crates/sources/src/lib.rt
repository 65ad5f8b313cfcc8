// Sets of source layers, and trapezoids in memory with their sets: definitions and laws.
#![tactic(auto)]
