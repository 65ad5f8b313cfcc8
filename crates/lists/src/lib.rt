// Lists and Booleans: definitions and laws only.
#![tactic(auto)]
