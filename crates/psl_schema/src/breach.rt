//! Rules that are broken.
use std::marker::Model;

/// A rule that is broken, by its number, and the first place in the text that breaks it.
#[derive(Drop)]
pub struct Breach {
    pub rule: u8,
    pub at: usize,
}

impl Model for Breach {
    ghost use Rattle.psl_rules.specs.Accepted.{Breach};

    ghost Value = { Breach };

    ghost view = { λ b. record { rule = b.rule; at = b.at } };
}
