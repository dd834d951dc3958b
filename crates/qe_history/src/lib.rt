//! Definitions: one step of the engine, the histories that are legal, and what is written for the lines of an
//! input.
#![tactic(auto)]
