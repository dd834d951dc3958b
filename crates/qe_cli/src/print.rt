//! Writing texts and lines.
ghost use Rattle.std.specs.Prelude.{◌≡◌, ◌⊎◌, IfOk, true};
ghost use Rattle.qe_node.specs.Port.{OnlyMoved};
ghost use Rattle.qe_cli.specs.Command.{LayoutComes, TextComes};
ghost use Rattle.qe_cli.specs.Connected.{laid_out};
ghost use Rattle.qe_cli.specs.Ends.{EndsFor, Prints, has_made_line, line_of};

use crate::End;
use qe_base::Host;
use qe_node::write_all;
use qe_schema::Schema;
use qe_text::{Memory, Text};
use qe_view::Layout;
use std::alloc::Global;

/// Writes a text.
pub fn say<H: Host>(host: &mut H, text: &[u8]) -> End
    ensures comes { TextComes text.now result (H.seen host.old) (H.seen host.new) }
    ensures causes { EndsFor result (H.seen host.old) (H.seen host.new) }
    ensures others { OnlyMoved (H.seen host.old) (H.seen host.new) }
{
    match write_all(host, text) {
        Ok(()) => End::Done,
        Err(_) => End::WriteFault,
    }
}

/// The text of a schema's layout.
fn layout(alloc: Global, schema: &Schema) -> Result<Text, Memory>
    ensures { IfOk result (λ text. text ≡ laid_out schema.now) }
{
    let layout = Layout::of(alloc, schema)?;
    layout.ddl(alloc)
}

/// Writes the layout of a schema.
pub fn say_layout<H: Host>(alloc: Global, schema: &Schema, host: &mut H) -> End
    ensures comes { LayoutComes schema.now result (H.seen host.old) (H.seen host.new) }
    ensures causes { EndsFor result (H.seen host.old) (H.seen host.new) }
    ensures others { OnlyMoved (H.seen host.old) (H.seen host.new) }
{
    let Ok(text) = layout(alloc, schema) else {
        return End::Memory;
    };
    say(host, text.as_str().as_bytes())
}

/// Prints a line, or its front where the sink fails.
fn print_line<H: Host>(host: &mut H, line: &[u8])
    ensures { Prints line.now (H.seen host.old) (H.seen host.new) }
{
    let _ = write_all(host, line);
}

/// Prints the line of an end, and gives the end. Where the line finds no memory the end is that
/// instead.
pub fn print_end<H: Host>(alloc: Global, end: End, host: &mut H) -> End
    ensures end { (result ≡ end) ⊎ ((has_made_line end ≡ true) × (result ≡ End.Memory)) }
    ensures prints { Prints (line_of result) (H.seen host.old) (H.seen host.new) }
{
    if let Some(line) = end.fixed_line() {
        print_line(host, line);
        return end;
    }
    match end.made_line(alloc) {
        Ok(line) => {
            print_line(host, line.as_bytes());
            end
        }
        Err(_) => {
            print_line(host, b"memory\n");
            End::Memory
        }
    }
}
