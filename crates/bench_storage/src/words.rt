//! What the words ask for.

/// The schema of the rows, which are an id and two texts.
#[derive(Clone, Copy, Debug, PartialEq, Eq)]
pub enum Shape {
    Plain,
    /// The second text is a key.
    Unique,
    /// The second text is a key, and the first one refers to it.
    Foreign,
}

/// A read that is made of the connector.
#[derive(Clone, Copy, Debug, PartialEq, Eq)]
pub enum Read {
    /// The row of an id.
    Id,
    /// The row of a second text.
    Unique,
    /// The three rows of a first text.
    Foreign,
    /// Fifty rows from the middle.
    Page,
    /// The rows whose second text contains a needle: one in a hundred.
    Scan,
}

/// What is done over the rows.
#[derive(Clone, Copy, Debug, PartialEq, Eq)]
pub enum Work {
    /// They are created, and no more.
    Create,
    /// The lines of the creates are made and read, but not handled.
    Lines,
    Read(Read),
    /// The rows of a list that pass the test of a scan are gathered by a plain loop.
    Loop,
}

/// What is done how often, over how many rows of which schema.
#[derive(Clone, Copy, Debug)]
pub struct Asked {
    pub shape: Shape,
    pub work: Work,
    pub rows: u32,
    pub times: u32,
}

fn shape_named(word: &str) -> Option<Shape> {
    match word {
        "plain" => Some(Shape::Plain),
        "unique" => Some(Shape::Unique),
        "foreign" => Some(Shape::Foreign),
        _ => None,
    }
}

fn work_named(word: &str) -> Option<Work> {
    match word {
        "create" => Some(Work::Create),
        "lines" => Some(Work::Lines),
        "id" => Some(Work::Read(Read::Id)),
        "unique" => Some(Work::Read(Read::Unique)),
        "foreign" => Some(Work::Read(Read::Foreign)),
        "page" => Some(Work::Read(Read::Page)),
        "scan" => Some(Work::Read(Read::Scan)),
        "loop" => Some(Work::Loop),
        _ => None,
    }
}

/// What the words ask for, behind the program's name: None where they aren't a schema, a work and two numbers.
pub fn asked_by(words: &[String]) -> Option<Asked> {
    let [_, shape, work, rows, times] = words else {
        return None;
    };
    Some(Asked {
        shape: shape_named(shape.as_str())?,
        work: work_named(work.as_str())?,
        rows: rows.as_str().parse::<u32>().ok()?,
        times: times.as_str().parse::<u32>().ok()?,
    })
}
