//! The archive's calls as definitions over lent words and bytes, and what holds of them: demand 3 over any list of them, figures, and that answers fit a word.
//! It has no function of its own.

#![tactic(auto)]
