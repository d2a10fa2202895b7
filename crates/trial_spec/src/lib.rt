//! Request A.2: the trial program as a total function of its input, and what holds of it. It has no function of its own.

#![tactic(auto)]
