// A repair by places is the repair by packets: no code, one theorem.

#![tactic(auto)]
