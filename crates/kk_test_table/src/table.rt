//! Tables that one thread and two threads call on.
ghost use Rattle.std.specs.Prelude.{◌≡◌, ◌+◌, ◌*◌, ◌<◌, ◌≤◌, ◌^◌, true, false, All, IfOk, length};
ghost use Rattle.kk_machine.specs.declared.log.TheConstants.{MAX_WIDTH};
ghost use Rattle.kk_rows.specs.Rows.{numbers};
ghost use Rattle.kk_rows.specs.Span.{in_span};
ghost use Rattle.kk_table.specs.Rule.{sight};
ghost use Rattle.kk_table.specs.Logs.{IsLogs};

use kk_code::Ticket;
use kk_rows::{Alloc, Row, RowSpace};
use kk_table::{Founder, Freeze, GenTable, Held, Inserted, Logs, NoPass, Pass, Shape};
use std::alloc::Global;
use std::test::Fail;
use std::thread::{Threads, join};

/// Three generations of rows of six bits.
const TICKET: &str = "kk1:00000001:3:0000000000000003:3:1:1";

/// Adds the rows to generation 0, through a pass that is handed back. Unless it then knows the log closed, all rows are
/// in the span of those that it has seen.
pub fn add_rows(table: &GenTable, pass: Pass, rows: &[Row]) -> Pass
    requires table { pass.table ≡ table.now }
    requires some { 0 < table.now.shape.generations }
    requires rows_fit { All (λ r. r < 2 ^ table.now.shape.width) (numbers rows.now) }
    ensures table { result.table ≡ pass.table }
    ensures spanned { (sight result.known 0).closed ≡ false
        → All (λ r. in_span (sight result.known 0).rows r ≡ true) (numbers rows.now) }
{
    let mut pass = pass;
    for row in rows {
        let _ = table.insert(&mut pass, 0, *row);
    }
    pass
}

/// The logs of a table of one generation, to which two threads add rows at the same time.
pub fn gathered<R: Threads + Sync>(
    rt: &R,
    alloc: Global,
    width: u32,
    left: &[Row],
    right: &[Row],
) -> Result<Logs, Alloc>
    requires width { (0 < width) × (width ≤ MAX_WIDTH) }
    requires left_fits { All (λ r. r < 2 ^ width) (numbers left.now) }
    requires right_fits { All (λ r. r < 2 ^ width) (numbers right.now) }
    ensures generations { IfOk result (λ logs. logs.shape.generations ≡ 1) }
    ensures passes { IfOk result (λ logs. length logs.records ≡ 2) }
    ensures history { IfOk result (λ logs. IsLogs logs.shape logs.records logs.logs) }
{
    let shape = Shape {
        generations: 1,
        width,
    };
    let (table, mut founder) = GenTable::with_shape(alloc, shape, 2)?;
    let Ok(a) = founder.pass(alloc, &table) else {
        return Err(Alloc);
    };
    let Ok(b) = founder.pass(alloc, &table) else {
        return Err(Alloc);
    };
    let (a, b) = join(
        rt,
        || add_rows(&table, a, left),
        || add_rows(&table, b, right),
    );
    founder.take_back(&table, a);
    founder.take_back(&table, b);
    let Ok(logs) = table.finish(founder) else {
        unreachable!()
    };
    logs.history();
    Ok(logs)
}

/// Ends a table in a thread of its own.
fn finished_elsewhere<R: Threads + Sync>(
    rt: &R,
    table: GenTable,
    founder: Founder,
) -> Result<Logs, Held>
    requires { founder.table ≡ table }
    ensures { IfOk result (λ l. l.shape ≡ table.shape) }
{
    let (logs, ()) = join(rt, || table.finish(founder), || ());
    logs
}

/// Inserts a row into generation 0, with at most two accesses for each row that this shows the pass, its own among them,
/// and two more. The reply, and how many rows it showed.
fn insert_and_count(table: &GenTable, pass: &mut Pass, row: Row) -> (Inserted, usize)
    requires table { pass.old.table ≡ table.now }
    requires some { 0 < table.now.shape.generations }
    requires row { row.0 < 2 ^ table.now.shape.width }
    ensures table { pass.new.table ≡ pass.old.table }
    ensures accesses { pass.new.known.accesses ≤ pass.old.known.accesses + (2 * result.1 + 2) }
{
    let before = pass.rows_seen(0).len();
    let told = table.insert(pass, 0, row);
    (told, pass.rows_seen(0).len() - before)
}

#[test]
fn one_call_comes_after_another(rt: HostRuntime) -> Result<(), Fail> {
    let Ok(ticket) = Ticket::read(TICKET) else {
        panic!(rt; "no ticket")
    };
    let (table, mut founder) = GenTable::new(rt.alloc(), &ticket, 3)?;
    let shape = table.shape();
    assert!(rt; shape.generations == 3 && shape.width == 6);
    let (Ok(mut a), Ok(mut b)) = (
        founder.pass(rt.alloc(), &table),
        founder.pass(rt.alloc(), &table),
    ) else {
        panic!(rt; "no pass")
    };
    assert!(rt; matches!(founder.pass_reserved(&table), Err(NoPass::Alloc)));
    founder.reserve(rt.alloc(), &table)?;
    assert_eq!(rt;
        table.insert(&mut a, 0, Row(13)),
        Inserted::Innovative { rank: 1 }
    );
    assert_eq!(rt; table.insert(&mut b, 0, Row(13)), Inserted::Redundant);
    assert_eq!(rt; table.freeze(&mut a, 0), Freeze::Frozen { rank: 1 });
    assert_eq!(rt; table.insert(&mut b, 0, Row(17)), Inserted::Late);
    assert_eq!(rt; table.freeze(&mut b, 0), Freeze::Already);
    assert_eq!(rt; table.peek(&mut b, 0), 1);
    assert!(rt; b.number() == 2 && b.known_closed(0) && !b.known_closed(1));
    founder.take_back(&table, a);
    founder.take_back(&table, b);
    let Ok(mut c) = founder.pass_reserved(&table) else {
        panic!(rt; "a storage is reserved")
    };
    assert_eq!(rt; table.peek(&mut c, 0), 1);
    founder.take_back(&table, c);
    let Ok(logs) = table.finish(founder) else {
        panic!(rt; "no pass is out")
    };
    assert_eq!(rt; logs.rows(0), [Row(13)].as_slice());
    assert!(rt; logs.rows(1).is_empty() && logs.rows(2).is_empty());
    assert!(rt; logs.is_closed(0) && !logs.is_closed(1) && !logs.is_closed(2));
    Ok(())
}

#[test]
fn a_pass_that_is_out_holds_the_table(rt: HostRuntime) -> Result<(), Fail> {
    let Ok(ticket) = Ticket::read(TICKET) else {
        panic!(rt; "no ticket")
    };
    let (table, mut founder) = GenTable::new(rt.alloc(), &ticket, 2)?;
    let (Ok(a), Ok(b)) = (
        founder.pass(rt.alloc(), &table),
        founder.pass(rt.alloc(), &table),
    ) else {
        panic!(rt; "no pass")
    };
    founder.take_back(&table, a);
    assert_eq!(rt; founder.out(), 1);
    let Err(
        Held {
            table,
            mut founder,
            out,
        },
    ) = table.finish(founder)
    else {
        panic!(rt; "a pass is out")
    };
    assert_eq!(rt; out, 1);
    assert!(rt; matches!(founder.pass(rt.alloc(), &table), Err(NoPass::AllGiven)));
    founder.take_back(&table, b);
    assert!(rt; matches!(founder.pass(rt.alloc(), &table), Err(NoPass::AllGiven)));
    assert!(rt; table.finish(founder).is_ok());
    Ok(())
}

#[test]
fn an_insert_reads_on_from_what_is_seen(rt: HostRuntime) -> Result<(), Fail> {
    let Ok(ticket) = Ticket::read(TICKET) else {
        panic!(rt; "no ticket")
    };
    let (table, mut founder) = GenTable::new(rt.alloc(), &ticket, 2)?;
    let shape = table.shape();
    assert!(rt; shape.generations == 3 && shape.width == 6);
    let (Ok(a), Ok(mut b)) = (
        founder.pass(rt.alloc(), &table),
        founder.pass(rt.alloc(), &table),
    ) else {
        panic!(rt; "no pass")
    };
    let a = add_rows(&table, a, &[Row(13), Row(17), Row(34)]);
    // within 10 accesses, and within 2
    let fourth = insert_and_count(&table, &mut b, Row(8));
    let fifth = insert_and_count(&table, &mut b, Row(5));
    assert_eq!(rt; fourth, (Inserted::Innovative { rank: 4 }, 4));
    assert_eq!(rt; fifth, (Inserted::Redundant, 0));
    assert_eq!(rt;
        b.rows_seen(0),
        [Row(13), Row(17), Row(34), Row(8)].as_slice()
    );
    assert!(rt; b.space(0).rank() == 4 && a.rows_seen(0).len() == 3);
    Ok(())
}

/// Makes 100 calls, a third of them on each generation: inserts of rows that begin with this one, and peeks.
fn call_often(table: &GenTable, pass: Pass, first: u128) -> Pass
    requires table { pass.table ≡ table.now }
    requires in_range { 3 ≤ table.now.shape.generations }
    requires row { (table.now.shape.width ≡ 6) × (first < 2 ^ 5) }
    ensures { result.table ≡ pass.table }
{
    let mut pass = pass;
    for i in 0..100u32 {
        let generation = i % 3;
        if i % 10 == 9 {
            let _ = table.peek(&mut pass, generation);
        } else {
            let _ = table.insert(&mut pass, generation, Row(first + u128::from(i % 32)));
        }
    }
    pass
}

/// Whether no row is a sum of those before it.
fn are_independent(rows: &[Row]) -> bool
    requires { All (λ r. r < 2 ^ 6) (numbers rows.now) }
{
    let mut space = RowSpace::new(6);
    for row in rows {
        if space.insert(*row).is_none() {
            return false;
        }
    }
    true
}

#[test]
fn two_threads_make_a_hundred_calls_each(rt: HostRuntime) -> Result<(), Fail> {
    let Ok(ticket) = Ticket::read(TICKET) else {
        panic!(rt; "no ticket")
    };
    let (table, mut founder) = GenTable::new(rt.alloc(), &ticket, 2)?;
    let shape = table.shape();
    assert!(rt; shape.generations == 3 && shape.width == 6);
    let (Ok(a), Ok(b)) = (
        founder.pass(rt.alloc(), &table),
        founder.pass(rt.alloc(), &table),
    ) else {
        panic!(rt; "no pass")
    };
    let (a, b) = join(
        &rt,
        || call_often(&table, a, 1),
        || call_often(&table, b, 17),
    );
    founder.take_back(&table, a);
    founder.take_back(&table, b);
    let Ok(logs) = finished_elsewhere(&rt, table, founder) else {
        panic!(rt; "no pass is out")
    };
    for generation in 0..3 {
        assert!(rt; are_independent(logs.rows(generation)));
        assert_eq!(rt; logs.rows(generation).len(), 6);
    }
    logs.history();
    Ok(())
}

#[test]
fn two_threads_gather_rows(rt: HostRuntime) -> Result<(), Fail> {
    let logs = gathered(
        &rt,
        rt.alloc(),
        6,
        &[Row(13), Row(17)],
        &[Row(17), Row(34), Row(28)],
    )?;
    assert!(rt; logs.rows(0).len() == 3 && !logs.is_closed(0));
    Ok(())
}
