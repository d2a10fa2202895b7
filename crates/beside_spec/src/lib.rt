//! The store's calls with the record of a repair beside the store's (request A.8): the calls as data, demand 1 of them, and what a step does. It has no function.

#![tactic(auto)]
