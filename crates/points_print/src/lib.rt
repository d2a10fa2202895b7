//! The points printer of request A.9: its definition, `specs/PointsPrinter.antt`, and the proof that the parser of the crate `printer`, asked for a
//! line of points, decides what the definition says. No function is here.

#![tactic(auto)]
