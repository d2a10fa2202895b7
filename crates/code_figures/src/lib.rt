//! Figures of the code and of the board-level calls, apart from their definitions, whose edits are refused without them. It has no function of its own.

#![tactic(auto)]
