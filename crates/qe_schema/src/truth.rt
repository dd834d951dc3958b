//! What a test or a filter says.

/// What a test or a filter says of a row: null makes it unknown.
#[derive(Clone, Copy, Debug, PartialEq, Eq)]
pub enum Truth {
    Yes,
    No,
    Unknown,
}
