//! Tests of what no text of a case reaches: the system's own host, and the documentation of trees. There is
//! nothing else in here.
#![tactic(auto)]

#[cfg(test)]
mod hosts;
#[cfg(test)]
mod trees;
