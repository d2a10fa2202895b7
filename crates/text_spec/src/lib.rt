//! Request A.1: share texts as they are read again, the text reader and the gathering as total functions of their input, and what holds of them. It has no
//! function of its own.

#![tactic(auto)]
