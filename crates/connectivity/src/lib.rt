// Trapezoids that touch, and the connected components of a layer: definitions and laws only.
#![tactic(auto)]
