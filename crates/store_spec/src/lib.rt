//! The store's calls of document 01 as total functions of record, area and arguments, and demand 1. It has no function.

#![tactic(auto)]
