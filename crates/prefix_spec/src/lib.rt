//! Request A.14: how far a share text still makes sense, as a total function of the text, and what holds of it. It has no function of its own.

#![tactic(auto)]
