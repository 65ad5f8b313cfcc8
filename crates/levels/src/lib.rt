// A list put in order with one element for each level: definitions and laws only.
#![tactic(auto)]
