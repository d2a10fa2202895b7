//! The six board-level calls of document 01 as total functions of their input, and what holds of them. It has no function of its own.

#![tactic(auto)]
