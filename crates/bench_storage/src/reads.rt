//! Reads of a connector, and the loop that a scan is compared with.
ghost use Rattle.std.specs.Prelude.{◌≡◌, ◌∷◌, [], filter, IfOk, Some, false};
ghost use Rattle.qe_schema.specs.Tests.{passes as passes_all};
ghost use Rattle.qe_view.specs.After.{rows_at, rows_passing, page_in};
ghost use Rattle.qe_view.specs.Attached.{shapes_of};
ghost use Rattle.bench_storage.specs.Over.{Gives, IsOver};

use crate::allowed::{can_load, can_page, can_scan};
use crate::made::{FIRST, ID, SECOND, id_key, number_at, scan_tests, text_key};
use crate::stop::Stop;
use crate::words::{Asked, Read, Work};
use qe_base::{ColumnTest, Items, Memory, Row, Rows, TableId};
use qe_view::{Connector, Layout, passes};
use std::alloc::Global;
use std::slice;

/// How many rows a page has.
const PAGE: usize = 50;

/// The table of the rows.
const ITEMS: TableId = TableId(0);

/// The rows with a key in a column.
fn load<C: Connector>(layout: &Layout, tables: &mut C, column: u16, key: &Row) -> Result<Rows, Stop>
    requires { IsOver layout.now (C.seen tables.old) }
    ensures rows { Gives (C.seen tables.old).told (rows_at (column ∷ []) (key.now ∷ []) 0) result }
    ensures over { IsOver layout.now (C.seen tables.new) }
{
    if !can_load(layout, ITEMS, column, key) {
        return Err(Stop::Call);
    }
    Ok(tables.load(ITEMS, slice::from_ref(&column), slice::from_ref(key))?)
}

/// A page from an id.
fn page<C: Connector>(layout: &Layout, tables: &mut C, from: &Row) -> Result<Rows, Stop>
    requires { IsOver layout.now (C.seen tables.old) }
    ensures rows { Gives (C.seen tables.old).told (page_in (shapes_of layout.now) (Some from.now) false 50 0) result }
    ensures over { IsOver layout.now (C.seen tables.new) }
{
    if !can_page(layout, ITEMS, from) {
        return Err(Stop::Call);
    }
    Ok(tables.page(ITEMS, Some(from), false, PAGE)?)
}

/// The rows that pass tests.
fn scan<C: Connector>(layout: &Layout, tables: &mut C, tests: &[ColumnTest]) -> Result<Rows, Stop>
    requires { IsOver layout.now (C.seen tables.old) }
    ensures rows { Gives (C.seen tables.old).told (rows_passing tests.now 0) result }
    ensures over { IsOver layout.now (C.seen tables.new) }
{
    if !can_scan(layout, ITEMS, tests) {
        return Err(Stop::Call);
    }
    Ok(tables.scan(ITEMS, tests)?)
}

/// Makes a read over so many rows, at its turn.
fn read_once<C: Connector>(
    alloc: Global,
    layout: &Layout,
    tables: &mut C,
    read: Read,
    rows: u32,
    turn: u32,
) -> Result<Rows, Stop>
    requires { IsOver layout.now (C.seen tables.old) }
    ensures { IsOver layout.now (C.seen tables.new) }
{
    match read {
        Read::Id => load(layout, tables, ID, &id_key(alloc, number_at(turn, rows))?),
        Read::Unique => load(
            layout,
            tables,
            SECOND,
            &text_key(alloc, number_at(turn, rows))?,
        ),
        Read::Foreign => load(
            layout,
            tables,
            FIRST,
            &text_key(alloc, number_at(turn, rows / 3))?,
        ),
        Read::Page => page(layout, tables, &id_key(alloc, rows / 2)?),
        Read::Scan => scan(layout, tables, scan_tests(alloc)?.as_slice()),
    }
}

/// Makes a read so often, and counts the rows that came.
fn count_read<C: Connector>(
    alloc: Global,
    layout: &Layout,
    tables: &mut C,
    read: Read,
    asked: Asked,
) -> Result<u64, Stop>
    requires { IsOver layout.now (C.seen tables.old) }
{
    let mut count = 0_u64;
    for turn in 0..asked.times {
        let found = read_once(alloc, layout, tables, read, asked.rows, turn)?;
        count = count.saturating_add(found.rows.len() as u64);
    }
    Ok(count)
}

/// The rows of a list that pass tests, as a scan gives those of a table.
fn passing(alloc: Global, tests: &[ColumnTest], rows: &[Row]) -> Result<Items<Row>, Memory>
    ensures { IfOk result (λ kept. kept ≡ filter (passes_all tests.now) rows.now) }
{
    let mut kept = Items::new(alloc);
    for row in rows {
        if passes(tests, row) {
            kept.push(row.share()?)?;
        }
    }
    Ok(kept)
}

/// Goes over a list of rows so often, and counts those that passed.
fn count_passing(alloc: Global, rows: &[Row], times: u32) -> Result<u64, Stop> {
    let tests = scan_tests(alloc)?;
    let mut count = 0_u64;
    for _ in 0..times {
        let kept = passing(alloc, tests.as_slice(), rows)?;
        count = count.saturating_add(kept.len() as u64);
    }
    Ok(count)
}

/// Does what is asked for over rows that were created, and counts the rows that came.
pub fn count_rows<C: Connector>(
    alloc: Global,
    layout: &Layout,
    tables: C,
    asked: Asked,
) -> Result<u64, Stop>
    requires { IsOver layout.now (C.seen tables) }
{
    let mut tables = tables;
    match asked.work {
        Work::Create | Work::Lines => Ok(u64::from(asked.rows)),
        Work::Read(read) => count_read(alloc, layout, &mut tables, read, asked),
        Work::Loop => {
            let all = scan(layout, &mut tables, &[])?;
            count_passing(alloc, all.rows.as_slice(), asked.times)
        }
    }
}
