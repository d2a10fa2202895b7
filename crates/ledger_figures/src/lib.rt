//! Figures of the ledger, of repairs with stand-ins, of careful reads and of moves, a crate of its own because antt computes long on them. It has no function of its own.

#![tactic(auto)]
