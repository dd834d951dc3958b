//! Definitions: the rules of an accepted schema, each as the places of a tree that break it.
#![tactic(auto)]

mod key;
mod laws;

pub use key::Key;
pub use laws::rounds_are_enough;
