//! Events, what they are replied, and the entries of a history.
use crate::{Answer, Op, OpFault, Outside, TableId};
use sqlite_items::Items;

/// What a caller asks for.
#[derive(Drop)]
pub enum What {
    /// A greeting, by which a caller is known from then on.
    Hello,
    /// An operation by itself.
    Single(Op),
    /// Operations one after another, all of them or none.
    Batch(Items<Op>),
    /// A transaction, which expires after so many milliseconds.
    Start(u32),
    /// An operation in the transaction of a number.
    Step(u64, Op),
    /// The end of a transaction, which keeps what it did.
    Commit(u64),
    /// The end of a transaction, which forgets what it did.
    Rollback(u64),
}

/// What happens at one place of the history. Where `seen` is given, the caller has seen the entry of
/// that place.
#[derive(Drop)]
pub struct Event {
    pub seen: Option<u64>,
    pub outside: Outside,
    pub what: What,
}

/// What an event is answered.
#[derive(Drop)]
pub enum Reply {
    Hello,
    Answer(Answer),
    /// The answers of a batch, in order.
    Answers(Items<Answer>),
    /// The number of a transaction that was started, committed or rolled back.
    Started(u64),
    Committed(u64),
    RolledBack(u64),
    /// The operation was refused; in a batch, the one of that index.
    Refused {
        index: Option<u64>,
        fault: OpFault,
    },
    /// There was no transaction of that number yet; the next one has the other.
    Unknown {
        asked: u64,
        next: u64,
    },
    /// The transaction of that number has ended; the next one has the other.
    Closed {
        asked: u64,
        next: u64,
    },
    /// The moment is at or past the transaction's deadline.
    Expired {
        deadline: i64,
        moment: i64,
    },
    /// As many transactions are open as may be.
    Full,
    /// A table that the transaction depends on was written since its start: by so many units then and now.
    Conflict {
        table: TableId,
        start: u64,
        now: u64,
    },
    /// The entry that the caller says to have seen isn't before this place.
    Unseen {
        asked: u64,
        place: u64,
    },
    Memory,
}

/// One entry of a history. A caller is known by the place of its greeting.
#[derive(Drop)]
pub struct Entry {
    pub caller: u64,
    pub event: Event,
    pub reply: Reply,
}
