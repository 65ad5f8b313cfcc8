// From what was sent to what is on file: definitions and laws only.
#![tactic(auto)]
