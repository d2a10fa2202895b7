// A started repair by places: definitions and laws only.
// Assumes nothing.

#![tactic(auto)]
