//! Places that come too late to be the first.
ghost use Rattle.std.specs.Prelude.{◌≡◌};
ghost use Rattle.psl_relations.specs.Passed as spec;

/// Whether what was found stands in front of this place, or at it.
pub fn is_behind(found: Option<usize>, at: usize) -> bool
    ensures { result ≡ spec.is_behind found at }
{
    match found {
        Some(first) => first <= at,
        None => false,
    }
}
