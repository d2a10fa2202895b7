//! The record of a repair in 71 words: definitions and laws. It has no function.

#![tactic(auto)]
