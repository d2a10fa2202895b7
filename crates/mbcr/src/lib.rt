//! The cooperative regenerating code of document 01 as definitions, and the theorems of demand 2. It has no function.

#![tactic(auto)]
