//! What a host in memory notes of its calls, as long as there is memory for that.
ghost use Rattle.std.specs.Prelude.{◌≡◌, ◌++◌, ◌∷◌, [], IfSome, IsSomeAnd, length};
ghost use Rattle.qe_base.specs.Marks.{AddsMark};
ghost use Rattle.qe_base.specs.MemSink.{sink_taken};
ghost use Rattle.qe_base.specs.MemSource.{source_given};

use crate::outside::mem_sink::MemSink;
use crate::outside::mem_source::MemSource;
use qe_text::Text;
use sqlite_items::Items;
use std::alloc::Global;

/// Where a read began: how many bytes had been given by then, and how many taken.
#[derive(Clone, Copy)]
pub struct Mark {
    pub given: usize,
    pub taken: usize,
}

/// The marks of earlier reads and that of one which begins now. None where the sink doesn't tell.
pub fn with_mark(
    marks: Option<Items<Mark>>,
    source: &MemSource,
    sink: &MemSink,
) -> Option<Items<Mark>>
    ensures { IfSome result (λ all. AddsMark marks (source_given source.now) (sink_taken sink.now) all) }
{
    let mut marks = marks?;
    let taken = sink.count()?;
    let mark = Mark {
        given: source.given(),
        taken,
    };
    match marks.push(mark) {
        Ok(()) => Some(marks),
        Err(_) => None,
    }
}

/// The names of earlier fetches and this one.
pub fn with_name(alloc: Global, names: Option<Items<Text>>, name: &str) -> Option<Items<Text>>
    ensures { IfSome result (λ all. IsSomeAnd names (λ earlier. all ≡ earlier ++ name.now ∷ [])) }
{
    let mut names = names?;
    let Ok(text) = Text::from_str(alloc, name) else {
        return None;
    };
    match names.push(text) {
        Ok(()) => Some(names),
        Err(_) => None,
    }
}
