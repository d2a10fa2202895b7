//! The record of the archive in twelve words: definitions and laws. It has no function.

#![tactic(auto)]
