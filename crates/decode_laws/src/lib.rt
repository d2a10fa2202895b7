//! A file from k boards by pairs and matrices: what the kernels work out, and that it is the stripe which the boards' bytes decode to.

#![tactic(auto)]
