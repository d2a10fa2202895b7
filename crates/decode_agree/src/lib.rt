//! Agreement: k boards' bytes are those of one stripe just where f of each and g of each have one value where they meet.

#![tactic(auto)]
