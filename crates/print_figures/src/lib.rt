//! Figures of the share printer, apart from its definition, whose edits are refused without them. It has no function of its own.

#![tactic(auto)]
