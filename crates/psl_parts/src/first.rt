//! The first place in the text of those that break a rule.
ghost use Rattle.std.specs.Prelude.{◌≡◌};
ghost use Rattle.psl_rules.specs.Parts.{earlier, noted};

/// The first of two places, either of which may be missing.
pub fn earlier(one: Option<usize>, other: Option<usize>) -> Option<usize>
    ensures { result ≡ earlier one other }
{
    match (one, other) {
        (None, place) | (place, None) => place,
        (Some(at), Some(other)) => Some(at.min(other)),
    }
}

/// What was found so far, with this place too where it breaks the rule.
pub fn noted(found: Option<usize>, breaks: bool, at: usize) -> Option<usize>
    ensures { result ≡ noted found breaks at }
{
    if breaks {
        earlier(found, Some(at))
    } else {
        found
    }
}
