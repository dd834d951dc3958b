//! The lines of an input, answered by a core.
#![tactic(auto)]

mod answer;
mod input;
mod joined;
mod port;
mod take;

pub use input::lines;
pub use joined::run_lines;
pub use port::write_all;

/// How the lines of an input ended.
#[derive(Clone, Copy, Debug, PartialEq, Eq)]
pub enum LinesEnd {
    /// The input was read to its end.
    Done,
    /// The input has more than 67,108,864 bytes.
    LongInput,
    ReadFault,
    WriteFault,
    Memory,
}
