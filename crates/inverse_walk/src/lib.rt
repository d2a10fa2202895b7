//! The walk over all bytes but 00 by the powers of 02, on which the table of inverses is filled: laws. It has no function of its own.

#![tactic(auto)]
