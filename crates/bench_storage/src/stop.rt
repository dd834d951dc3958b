//! Why the program stops.
use qe_text::Memory;
use qe_view::ConnFault;
use std::alloc::AllocError;

/// Why what is asked for isn't done.
#[derive(Clone, Copy, Debug, PartialEq, Eq)]
pub enum Stop {
    Memory,
    /// The schema's text has no schema.
    Schema,
    /// The connector wasn't attached.
    Attach,
    /// A line isn't read as an operation.
    Line,
    /// A create isn't answered.
    Create,
    /// A call would be none of the layout's.
    Call,
    /// A call was refused.
    Fault,
}

impl Stop {
    /// What is printed.
    pub fn text(self) -> &'static str {
        match self {
            Stop::Memory => "memory",
            Stop::Schema => "no schema",
            Stop::Attach => "not attached",
            Stop::Line => "a line isn't read",
            Stop::Create => "a create isn't answered",
            Stop::Call => "a call is none of the layout's",
            Stop::Fault => "a call is refused",
        }
    }
}

impl From<Memory> for Stop {
    fn from(_: Memory) -> Stop {
        Stop::Memory
    }
}

impl From<AllocError> for Stop {
    fn from(_: AllocError) -> Stop {
        Stop::Memory
    }
}

impl From<ConnFault> for Stop {
    fn from(_: ConnFault) -> Stop {
        Stop::Fault
    }
}
