//! The words of a command.
ghost use Rattle.std.specs.Prelude.{◌≡◌, map, string_bytes, option_map};
ghost use Rattle.qe_cli.specs.Asked.{begins_with_dash, command_named, command_of};

/// What is done with a schema.
#[derive(Clone, Copy, Debug, PartialEq, Eq)]
pub enum Command {
    /// The lines of the input are answered.
    Run,
    /// The schema is only read.
    Validate,
    /// The schema's layout is printed.
    Layout,
}

/// Whether a word begins with a dash.
fn begins_with_dash(word: &str) -> bool
    ensures { result ≡ begins_with_dash word.now }
{
    match word.as_bytes() {
        [] => false,
        [first, ..] => *first == b'-',
    }
}

/// The command of this name.
fn command_named(word: &str) -> Option<Command>
    ensures { result ≡ command_named word.now }
{
    if word == "run" {
        Some(Command::Run)
    } else if word == "validate" {
        Some(Command::Validate)
    } else if word == "layout" {
        Some(Command::Layout)
    } else {
        None
    }
}

/// The command that the words name, and the name of the schema's file.
pub fn command_of(words: &[String]) -> Option<(Command, &str)>
    ensures { option_map (λ asked. (asked.0, asked.1.now)) result ≡ command_of (map string_bytes words.now) }
{
    match words {
        [_, name, schema] => {
            if begins_with_dash(schema.as_str()) {
                return None;
            }
            let command = command_named(name.as_str())?;
            Some((command, schema.as_str()))
        }
        _ => None,
    }
}
