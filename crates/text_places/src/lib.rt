//! Laws of lines that stand at places of a text: what is told of them, one after another, is what the text reads. It has no function of its own.

#![tactic(auto)]
