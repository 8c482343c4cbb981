//! Times inserts of rows: into plain row spaces by one thread, and into a shared table by 1, 2 or 4 threads, each into
//! generations of its own.
//!
//! `kk_bench THREADS QUARTER` fills four quarters of so many generations with rows, THREADS 0 for plain row spaces. It
//! prints the sum of the ranks, and on standard error the nanoseconds that the inserts took.
#![tactic(auto)]

ghost use Rattle.std.specs.Prelude.{◌≡◌, ◌*◌, ◌<◌, ◌≤◌, ◌^◌};

use kk_rows::{Row, RowSpace};
use kk_table::{GenTable, Logs, Pass, Shape};
use std::alloc::Global;
use std::env;
use std::process::ExitCode;
use std::rt::Clock;
use std::thread::{Threads, join};
use std::time::{Duration, Instant};

/// The bits of a row: the parameters (m, l) of such a code are (40, 20).
const WIDTH: u32 = 60;

/// How many rows a generation gets. Some are redundant.
const ROWS: u32 = 70;

/// The most generations of a quarter.
const MAX_QUARTER: u32 = 4_096;

/// A sequence of rows: the upper bits of the linear congruential generator of D. E. Knuth's MMIX.
#[derive(Drop)]
struct Rows {
    state: u64,
}

impl Rows {
    /// The next row.
    fn next(&mut self) -> Row
        ensures { result.0 < 2 ^ WIDTH }
    {
        self.state = self
            .state
            .wrapping_mul(6_364_136_223_846_793_005)
            .wrapping_add(1_442_695_040_888_963_407);
        Row(u128::from(self.state >> (64 - WIDTH)))
    }
}

/// The rank of a plain row space that is filled.
fn fill_space(rows: &mut Rows) -> u32 {
    let mut space = RowSpace::new(WIDTH);
    for _ in 0..ROWS {
        space.insert(rows.next());
    }
    space.rank()
}

/// The sum of the ranks of so many plain row spaces.
fn fill_spaces(generations: u32, seed: u64) -> u64 {
    let mut rows = Rows { state: seed };
    let mut ranks = 0u64;
    for _ in 0..generations {
        ranks = ranks.wrapping_add(u64::from(fill_space(&mut rows)));
    }
    ranks
}

/// Fills a generation of a table.
fn fill_generation(table: &GenTable, pass: &mut Pass, generation: u32, rows: &mut Rows)
    requires table { pass.old.table ≡ table.now }
    requires width { table.now.shape.width ≡ WIDTH }
    requires generation { generation < table.now.shape.generations }
    ensures { pass.new.table ≡ pass.old.table }
{
    for _ in 0..ROWS {
        let _ = table.insert(pass, generation, rows.next());
    }
}

/// Fills the generations of one quarter of a table.
fn fill_quarter(table: &GenTable, pass: Pass, quarter: u32, generations: u32) -> Pass
    requires table { pass.table ≡ table.now }
    requires width { table.now.shape.width ≡ WIDTH }
    requires quarter { quarter < 4 }
    requires most { generations ≤ MAX_QUARTER }
    requires generations { table.now.shape.generations ≡ 4 * generations }
    ensures { result.table ≡ pass.table }
{
    let mut pass = pass;
    let mut rows = Rows {
        state: u64::from(quarter),
    };
    let first = quarter * generations;
    for at in 0..generations {
        fill_generation(table, &mut pass, first + at, &mut rows);
    }
    pass
}

/// Fills two quarters of a table, by two threads or one after the other.
fn fill_half<R: Threads + Sync>(
    rt: &R,
    table: &GenTable,
    passes: (Pass, Pass),
    half: u32,
    generations: u32,
    by_two: bool,
) -> (Pass, Pass)
    requires tables { (passes.0.table ≡ table.now) × (passes.1.table ≡ table.now) }
    requires width { table.now.shape.width ≡ WIDTH }
    requires half { half < 2 }
    requires most { generations ≤ MAX_QUARTER }
    requires generations { table.now.shape.generations ≡ 4 * generations }
    ensures { (result.0.table ≡ table.now) × (result.1.table ≡ table.now) }
{
    let (a, b) = passes;
    let quarter = 2 * half;
    if by_two {
        join(
            rt,
            || fill_quarter(table, a, quarter, generations),
            || fill_quarter(table, b, quarter + 1, generations),
        )
    } else {
        let a = fill_quarter(table, a, quarter, generations);
        (a, fill_quarter(table, b, quarter + 1, generations))
    }
}

/// Fills a table by so many threads, 1, 2 or 4, through two pairs of passes.
fn fill<R: Threads + Sync>(
    rt: &R,
    table: &GenTable,
    passes: ((Pass, Pass), (Pass, Pass)),
    generations: u32,
    threads: u32,
) -> ((Pass, Pass), (Pass, Pass))
    requires first { (passes.0.0.table ≡ table.now) × (passes.0.1.table ≡ table.now) }
    requires second { (passes.1.0.table ≡ table.now) × (passes.1.1.table ≡ table.now) }
    requires width { table.now.shape.width ≡ WIDTH }
    requires most { generations ≤ MAX_QUARTER }
    requires generations { table.now.shape.generations ≡ 4 * generations }
    ensures first { (result.0.0.table ≡ table.now) × (result.0.1.table ≡ table.now) }
    ensures second { (result.1.0.table ≡ table.now) × (result.1.1.table ≡ table.now) }
{
    let (first, second) = passes;
    let by_four = threads == 4;
    if threads == 1 {
        let first = fill_half(rt, table, first, 0, generations, false);
        (first, fill_half(rt, table, second, 1, generations, false))
    } else {
        join(
            rt,
            ||
                requires tables { (first.0.table ≡ table.now) × (first.1.table ≡ table.now) }
                requires width { table.now.shape.width ≡ WIDTH }
                requires most { generations ≤ MAX_QUARTER }
                requires generations { table.now.shape.generations ≡ 4 * generations }
            { fill_half(rt, table, first, 0, generations, by_four) },
            ||
                requires tables { (second.0.table ≡ table.now) × (second.1.table ≡ table.now) }
                requires width { table.now.shape.width ≡ WIDTH }
                requires most { generations ≤ MAX_QUARTER }
                requires generations { table.now.shape.generations ≡ 4 * generations }
            { fill_half(rt, table, second, 1, generations, by_four) },
        )
    }
}

/// The sum of the ranks of a table.
fn sum_of_ranks(logs: &Logs, generations: u32) -> u64
    requires { generations ≤ logs.now.shape.generations }
{
    let mut ranks = 0u64;
    for generation in 0..generations {
        ranks = ranks.wrapping_add(logs.rows(generation).len() as u64);
    }
    ranks
}

/// The sum of the ranks of a table that was filled, and how long that took. `None` if there was no memory or no clock.
fn time_table<R: Threads + Sync + Clock>(
    rt: &R,
    alloc: Global,
    generations: u32,
    threads: u32,
) -> Option<(u64, Duration)>
    requires { generations ≤ MAX_QUARTER }
{
    let shape = Shape {
        generations: 4 * generations,
        width: WIDTH,
    };
    let Ok((table, mut founder)) = GenTable::with_shape(alloc, shape, 4) else {
        return None;
    };
    let (Ok(a), Ok(b), Ok(c), Ok(d)) = (
        founder.pass(alloc, &table),
        founder.pass(alloc, &table),
        founder.pass(alloc, &table),
        founder.pass(alloc, &table),
    ) else {
        return None;
    };
    let start = Instant::now(rt).ok()?;
    let ((a, b), (c, d)) = fill(rt, &table, ((a, b), (c, d)), generations, threads);
    let passed = start.elapsed(rt).ok()?;
    founder.take_back(&table, a);
    founder.take_back(&table, b);
    founder.take_back(&table, c);
    founder.take_back(&table, d);
    let Ok(logs) = table.finish(founder) else {
        return None;
    };
    Some((sum_of_ranks(&logs, 4 * generations), passed))
}

/// The same for plain row spaces.
fn time_spaces<R: Clock>(rt: &R, generations: u32) -> Option<(u64, Duration)> {
    let start = Instant::now(rt).ok()?;
    let mut ranks = 0u64;
    for quarter in 0..4 {
        ranks = ranks.wrapping_add(fill_spaces(generations, quarter));
    }
    Some((ranks, start.elapsed(rt).ok()?))
}

/// The two numbers of the command line.
fn numbers(rt: &HostRuntime) -> Option<(u32, u32)> {
    let mut words = env::args(rt).ok()?.skip(1);
    let threads = words.next()?.parse().ok()?;
    let generations = words.next()?.parse().ok()?;
    Some((threads, generations))
}

fn main(rt: HostRuntime) -> ExitCode {
    let Some((threads, generations)) = numbers(&rt) else {
        return ExitCode::FAILURE;
    };
    if generations > MAX_QUARTER || ![0, 1, 2, 4].contains(&threads) {
        return ExitCode::FAILURE;
    }
    let timed = if threads == 0 {
        time_spaces(&rt, generations)
    } else {
        time_table(&rt, rt.alloc(), generations, threads)
    };
    let Some((ranks, passed)) = timed else {
        return ExitCode::FAILURE;
    };
    let told = println!(rt; "{ranks}").and_then(|()| eprintln!(rt; "{}", passed.as_nanos()));
    ExitCode::from(u8::from(told.is_err()))
}
