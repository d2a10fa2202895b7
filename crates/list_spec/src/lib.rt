//! Lists of calls: steps of a repair in them, worn boards, the turn of all boards, whatever follows the definitions. It has no function.

#![tactic(auto)]
