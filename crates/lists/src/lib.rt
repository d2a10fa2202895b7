//! Definitions and laws of lists that everything above rests on. It has no function.

#![tactic(auto)]
