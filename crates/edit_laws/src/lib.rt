// An edit by stripes, and that it is the edit by boards. This crate has no functions.
// Assumes nothing.

#![tactic(auto)]
