//! The types of the engine: values, rows, schemas, operations, answers and refusals, and the traits
//! of what lies outside it.
#![tactic(auto)]

mod answer;
mod event;
mod outside;
mod query;
mod schema;
mod shared;
mod value;
mod write;

pub use answer::{Answer, OpFault, Outside, Rule, Why};
pub use event::{Entry, Event, Reply, What};
pub use outside::{
    Failed, FetchFault, Host, HostCall, MemHost, MemSink, MemSource, Outer, Sink, Source,
};
pub use qe_text::{Boxed, Bytes, Items, Memory, Text};
pub use query::{
    Child, ColumnTest, Filter, Like, Look, OrderBy, OrderEnd, Page, Pick, Quant, Test, Unique,
};
pub use schema::{Action, Choice, Column, Field, Fill, Key, Link, Relation, Table};
pub use shared::Shared;
pub use value::{EnumId, Kind, RelId, Row, Rows, TableId, Value};
pub use write::{Create, Edit, Nested, Op, Step, Update};
