//! The field of 256 elements: its definitions and its laws. The crates `gf256_mul` and `gf256_rows` have the functions that meet them.

#![tactic(auto)]
