//! Document 01's ledger, that it asks what the store asks, demand 3 and its premises. It has no function.

#![tactic(auto)]
