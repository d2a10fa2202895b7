//! Tables of figures over the definitions: those that document 01 marks M, and those with k = 2. It has no function.

#![tactic(auto)]
