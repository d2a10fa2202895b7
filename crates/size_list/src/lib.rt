//! All legal combinations of sizes: definitions and theorems. It has no function.

#![tactic(auto)]
