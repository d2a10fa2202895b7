// Bytes put at many places: definitions and laws only.
// Assumes nothing.

#![tactic(auto)]
