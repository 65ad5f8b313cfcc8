// Chains of set operations on layers of trapezoids: definitions and laws only.
#![tactic(auto)]
