//! Receivers over gates in memory and over gates that wait for each other, and a worker by itself.
ghost use Rattle.std.specs.Prelude.{◌≡◌, ◌<◌, ◌≤◌, None, IfOk, OnErr, length};
ghost use Rattle.kk_outside.specs.Gate.{FitsGate};
ghost use Rattle.kk_code.specs.Decoding.{answer};
ghost use Rattle.kk_code.specs.Ticket.{generations};
ghost use Rattle.kk_frame.specs.Generation.{rows_of};
ghost use Rattle.kk_workers.specs.Received.{changes, all_taken};
ghost use Rattle.kk_workers.specs.declared.running.TheConstants.{MAX_GATES};

use kk_code::{Message, Ticket};
use kk_frame::{Ended, GateCount, Limits};
use kk_outside::{Bytes, Event, Failed, GATE_BYTES, Gate, Got, MemoryGate};
use kk_rows::Alloc;
use kk_table::GenTable;
use kk_worked::{ONE_BYTE, frame};
use kk_workers::{MAX_GATES, Plan, Received, Receiver, Totals, Worker, receive, work};
use std::alloc::Global;
use std::process::Abort;
use std::sync::Arc;
use std::sync::atomic::{AtomicU64, Ordering};
use std::test::Fail;
use std::thread;
use std::thread::Threads;

/// What generation 0 decodes to, received from these gates: the answer of all its rows that they told.
fn first_message<R: Threads + Sync, G: Gate + Send>(
    rt: &R,
    alloc: Global,
    ticket: &Ticket,
    gates: &mut Vec<G>,
    limits: Limits,
) -> Result<Option<Message>, Alloc>
    requires few { length gates.old.items ≤ MAX_GATES }
    requires limits { (1 ≤ limits.idle) × (1 ≤ limits.most) }
    requires some { 0 < generations ticket.now }
    ensures gates { OnErr result (gates.new.items ≡ gates.old.items) }
    ensures message { IfOk result (λ m. m ≡ answer ticket.now.code (rows_of 0 (all_taken ticket.now limits (changes G.told gates.old.items gates.new.items)))) }
{
    let plan = Plan { limits, goal: None };
    let received = receive(rt, alloc, ticket, gates, &plan)?;
    match &received.answers()[0] {
        Some(message) => Ok(Some(Message::from_slice(message.symbols()))),
        None => Ok(None),
    }
}

/// What a gate gives: a datagram of data frames, each with its generation and its row, one of END, a quiet or a fault.
#[derive(Clone, Copy, Drop)]
enum Given {
    Rows(&'static [(u8, u8)]),
    End,
    Quiet,
    Fault,
}

/// The codeword of the symbol 5 over GF(8) with the modulus X^3 + X + 1, for l = 3 and k = 1, in generation 0, and those of
/// the symbol 0 in generations 1 and 2.
const FIRST: Given = Given::Rows(&[(0, 13), (0, 17), (0, 34)]);

const SECOND: Given = Given::Rows(&[(1, 8), (1, 16), (1, 32)]);

const THIRD: Given = Given::Rows(&[(2, 8), (2, 16), (2, 32)]);

/// What a gate gives that brings all.
const WHOLE: &[Given] = &[FIRST, SECOND, THIRD, Given::End];

/// The last two in one datagram.
const OTHERS: Given = Given::Rows(&[(1, 8), (1, 16), (1, 32), (2, 8), (2, 16), (2, 32)]);

/// Gates, and what a receiver with this goal leaves of them. A goal of 3 tolerates one injected dimension.
#[derive(Drop)]
struct Case {
    name: &'static str,
    gates: &'static [&'static [Given]],
    goal: Option<u32>,
    /// The symbol of each generation's message.
    symbols: [Option<u64>; 3],
    /// The rank of each generation, at least and at most.
    ranks: [(usize, usize); 3],
    /// The inserts, and how many are innovative, redundant and late, where threads don't decide it.
    totals: Option<[u64; 4]>,
    /// Why each gate ended, and how many datagrams and frames it gave.
    ends: &'static [(Ended, u64, u64)],
}

const CASES: &[Case] = &[
    Case {
        name: "three gates bring three generations",
        gates: &[&[], &[FIRST, SECOND, Given::Fault], &[THIRD, Given::End]],
        goal: None,
        symbols: [Some(5), Some(0), Some(0)],
        ranks: [(3, 3), (3, 3), (3, 3)],
        totals: Some([9, 9, 0, 0]),
        ends: &[
            (Ended::Over, 0, 0),
            (Ended::Fault, 2, 6),
            (Ended::End, 2, 3),
        ],
    },
    Case {
        name: "a generation that nobody brings has no answer",
        gates: &[&[], &[FIRST, SECOND, Given::Fault], &[Given::End]],
        goal: None,
        symbols: [Some(5), Some(0), None],
        ranks: [(3, 3), (3, 3), (0, 0)],
        totals: Some([6, 6, 0, 0]),
        ends: &[
            (Ended::Over, 0, 0),
            (Ended::Fault, 2, 6),
            (Ended::End, 1, 0),
        ],
    },
    Case {
        name: "rows that come twice are redundant",
        gates: &[
            &[FIRST, Given::Quiet],
            &[FIRST, Given::Rows(&[(0, 28), (0, 0), (0, 13)])],
        ],
        goal: None,
        symbols: [Some(5), None, None],
        ranks: [(3, 3), (0, 0), (0, 0)],
        totals: Some([9, 3, 6, 0]),
        ends: &[(Ended::Over, 1, 3), (Ended::Over, 2, 6)],
    },
    Case {
        name: "a row after the goal is late",
        gates: &[&[
            Given::Rows(&[(0, 13)]),
            Given::Rows(&[(0, 17)]),
            Given::Rows(&[(0, 34)]),
            Given::Rows(&[(0, 1)]),
            OTHERS,
        ]],
        goal: Some(3),
        symbols: [Some(5), Some(0), Some(0)],
        ranks: [(3, 3), (3, 3), (3, 3)],
        totals: Some([10, 9, 0, 1]),
        ends: &[(Ended::Over, 5, 10)],
    },
    Case {
        name: "an injected row within the goal is corrected",
        gates: &[&[
            Given::Rows(&[(0, 1)]),
            Given::Rows(&[(0, 13)]),
            Given::Rows(&[(0, 17)]),
            Given::Rows(&[(0, 34)]),
            OTHERS,
        ]],
        goal: Some(3),
        symbols: [Some(5), Some(0), Some(0)],
        ranks: [(3, 3), (3, 3), (3, 3)],
        totals: Some([10, 9, 0, 1]),
        ends: &[(Ended::Over, 5, 10)],
    },
    Case {
        name: "two gates bring the rows of one generation to the goal",
        gates: &[
            &[Given::Rows(&[(0, 13)]), Given::Rows(&[(0, 1)]), SECOND],
            &[Given::Rows(&[(0, 17)]), Given::Rows(&[(0, 34)]), THIRD],
        ],
        goal: Some(3),
        symbols: [Some(5), Some(0), Some(0)],
        ranks: [(3, 4), (3, 3), (3, 3)],
        totals: None,
        ends: &[(Ended::Over, 3, 5), (Ended::Over, 3, 5)],
    },
];

/// Gates that wait for each other, each after so many answers. A receiver that asked one gate after the other, or some of them
/// only after others have ended, would find the first alone, and one that inserted when its gates have ended would count other
/// rows as late.
const MEETINGS: &[(&[u32], Case)] = &[
    (
        &[0, 0],
        Case {
            name: "gates are asked at once",
            gates: &[&[FIRST, SECOND], &[THIRD, Given::End]],
            goal: None,
            symbols: [Some(5), Some(0), Some(0)],
            ranks: [(3, 3), (3, 3), (3, 3)],
            totals: Some([9, 9, 0, 0]),
            ends: &[(Ended::Over, 2, 6), (Ended::End, 2, 3)],
        },
    ),
    (
        &[1, 3],
        Case {
            name: "generations are frozen while gates are asked",
            gates: &[
                &[
                    Given::Rows(&[(2, 8), (2, 16), (2, 32), (0, 13), (0, 17), (0, 34)]),
                    Given::Rows(&[(1, 8)]),
                ],
                &[
                    Given::Rows(&[(1, 8)]),
                    Given::Rows(&[(1, 16)]),
                    Given::Rows(&[(1, 32)]),
                    Given::Rows(&[(0, 13)]),
                ],
            ],
            goal: Some(3),
            symbols: [Some(5), Some(0), Some(0)],
            ranks: [(3, 3), (3, 3), (3, 3)],
            totals: Some([11, 9, 0, 2]),
            ends: &[(Ended::Over, 2, 7), (Ended::Over, 4, 4)],
        },
    ),
    (
        &[0; MAX_GATES],
        Case {
            name: "each of sixteen gates has a thread",
            gates: &[WHOLE; MAX_GATES],
            goal: None,
            symbols: [Some(5), Some(0), Some(0)],
            ranks: [(3, 3), (3, 3), (3, 3)],
            totals: Some([144, 9, 135, 0]),
            ends: &[(Ended::End, 4, 9); MAX_GATES],
        },
    ),
];

/// The frames of these rows, one after the other.
fn frames_of(alloc: Global, rows: &[(u8, u8)]) -> Result<Vec<u8>, Alloc> {
    let mut bytes = Vec::new(alloc);
    for (generation, row) in rows {
        bytes.extend_from_slice(&frame(0, *generation, *row))?;
    }
    Ok(bytes)
}

/// A datagram of these bytes.
fn datagram_of(rt: &impl Abort, bytes: Vec<u8>) -> Event
    ensures { FitsGate result }
{
    assert!(rt; bytes.len() <= GATE_BYTES);
    Event::Datagram(Bytes::new(bytes))
}

/// The event of what is given.
fn event_of(rt: &impl Abort, alloc: Global, given: &Given) -> Result<Event, Alloc>
    ensures { IfOk result FitsGate }
{
    match given {
        Given::Rows(rows) => Ok(datagram_of(rt, frames_of(alloc, rows)?)),
        Given::End => Ok(datagram_of(rt, frame(1, 0, 0).to_vec(alloc)?)),
        Given::Quiet => Ok(Event::Quiet),
        Given::Fault => Ok(Event::Fault),
    }
}

/// A gate that gives these, in order.
fn gate_of(rt: &impl Abort, alloc: Global, given: &[Given]) -> Result<MemoryGate, Alloc> {
    let mut events = Vec::new(alloc);
    for each in given {
        events.push(event_of(rt, alloc, each)?)?;
    }
    Ok(MemoryGate::new(events))
}

/// Gates that give these.
fn gates_of(rt: &impl Abort, alloc: Global, given: &[&[Given]]) -> Result<Vec<MemoryGate>, Alloc> {
    let mut gates = Vec::new(alloc);
    for each in given {
        gates.push(gate_of(rt, alloc, each)?)?;
    }
    Ok(gates)
}

/// The ticket of a file of one byte: three generations, and rows of six bits.
fn ticket_of_one_byte(rt: &impl Abort) -> Result<Ticket, Fail>
    ensures { IfOk result (λ t. generations t ≡ 3) }
{
    let ticket = Ticket::read(ONE_BYTE)?;
    assert_eq!(rt; ticket.generations(), 3);
    Ok(ticket)
}

/// A plan with this goal, and limits that nothing here reaches.
fn plan_of(goal: Option<u32>) -> Plan
    ensures { (1 ≤ result.limits.idle) × (1 ≤ result.limits.most) }
{
    let limits = Limits {
        idle: 300,
        most: 10_000_000,
    };
    Plan { limits, goal }
}

/// Whether the message has this symbol alone, or there is neither.
fn is_answer(message: &Option<Message>, symbol: Option<u64>) -> bool {
    match (message, symbol) {
        (Some(message), Some(symbol)) => message.symbols() == [symbol].as_slice(),
        (None, None) => true,
        _ => false,
    }
}

/// Whether the inserts were answered so, where that is said.
fn are_totals(totals: &Totals, wanted: Option<[u64; 4]>) -> bool {
    let Totals {
        inserts,
        innovative,
        redundant,
        late,
    } = *totals;
    wanted.is_none_or(|wanted| wanted == [inserts, innovative, redundant, late])
}

/// Why a gate ended, and how many datagrams and frames it gave.
fn seen(counts: &GateCount) -> (Option<Ended>, u64, u64) {
    (counts.ended, counts.datagrams, counts.frames)
}

/// Compares what a receiver leaves with what it is to leave.
fn compare(rt: &impl Abort, received: Received, case: &Case) {
    let name = case.name;
    assert_eq!(rt; received.generations(), 3, "{name}");
    assert_eq!(rt; received.gates().len(), case.ends.len(), "{name}");
    for (counts, (ended, datagrams, frames)) in received.gates().iter().zip(case.ends) {
        assert_eq!(rt; seen(counts), (Some(*ended), *datagrams, *frames), "{name}");
    }
    for generation in 0..3u32 {
        let place = generation as usize;
        let (least, most) = case.ranks[place];
        let rank = received.log(generation).len();
        assert!(rt; least <= rank && rank <= most, "{name}");
        assert!(rt; received.logs().is_closed(generation), "{name}");
        assert!(rt;
            is_answer(&received.answers()[place], case.symbols[place]),
            "{name}"
        );
    }
    assert!(rt; are_totals(&received.totals(), case.totals), "{name}");
}

/// What a receiver of the ticket of one byte with this goal leaves of the gates.
fn received_of<R: Threads + Abort + Sync, G: Gate + Send>(
    rt: &R,
    alloc: Global,
    gates: &mut Vec<G>,
    goal: Option<u32>,
) -> Result<Received, Fail> {
    let ticket = ticket_of_one_byte(rt)?;
    assert!(rt; gates.len() <= MAX_GATES);
    Ok(receive(rt, alloc, &ticket, gates, &plan_of(goal))?)
}

#[test]
fn receivers_of_gates_in_memory(rt: HostRuntime) -> Result<(), Fail> {
    for case in CASES {
        let mut gates = gates_of(&rt, rt.alloc(), case.gates)?;
        let received = received_of(&rt, rt.alloc(), &mut gates, case.goal)?;
        compare(&rt, received, case);
        for (gate, (ended, _, _)) in gates.iter().zip(case.ends) {
            assert_eq!(rt;
                gate.faults(),
                u64::from(*ended == Ended::Fault),
                "{}",
                case.name
            );
        }
    }
    Ok(())
}

/// No gate, and one that has no event.
const NO_ROWS: &[&[&[Given]]] = &[&[], &[&[]]];

#[test]
fn file_of_no_bytes_has_no_generation(rt: HostRuntime) -> Result<(), Fail> {
    let ticket = Ticket::read("kk1:00000001:3:0000000000000003:3:1:0")?;
    for given in NO_ROWS {
        let mut gates = gates_of(&rt, rt.alloc(), given)?;
        assert!(rt; gates.len() <= MAX_GATES);
        let received = receive(&rt, rt.alloc(), &ticket, &mut gates, &plan_of(None))?;
        assert_eq!(rt; received.answers().len(), 0);
        assert_eq!(rt; received.totals().inserts, 0);
    }
    Ok(())
}

#[test]
fn first_message_of_one_gate(rt: HostRuntime) -> Result<(), Fail> {
    let ticket = ticket_of_one_byte(&rt)?;
    let mut gates = gates_of(
        &rt,
        rt.alloc(),
        &[&[Given::Rows(&[(0, 9), (0, 18), (0, 8)])]],
    )?;
    assert!(rt; gates.len() <= MAX_GATES);
    let limits = plan_of(None).limits;
    let message = first_message(&rt, rt.alloc(), &ticket, &mut gates, limits)?;
    assert!(rt; is_answer(&message, Some(1)));
    Ok(())
}

/// A gate that doesn't tell what it has left. It gives some answers, and waits before the next until all such gates have begun
/// to wait, too. It notes where that doesn't come.
#[derive(Drop)]
struct Meeting {
    begun: Arc<AtomicU64, Global>,
    all: u64,
    answers: u32,
    met: bool,
    alone: bool,
    events: MemoryGate,
}

impl Gate for Meeting {
    ghost told = { λ g. record { left = None; events = g.events.events; overs = g.events.overs; faults = g.events.faults } };

    fn next(&mut self, buf: &mut [u8; GATE_BYTES]) -> Result<Got, Failed> {
        if self.answers > 0 {
            self.answers -= 1;
        } else if !self.met {
            self.met = true;
            self.begun.fetch_add(1, Ordering::SeqCst);
            self.alone = !meets(&self.begun, self.all);
        }
        self.events.next(buf)
    }
}

/// Whether all have begun before a million turns are over.
fn meets(begun: &Arc<AtomicU64, Global>, all: u64) -> bool {
    for _ in 0..1_000_000u32 {
        if begun.load(Ordering::SeqCst) >= all {
            return true;
        }
        thread::yield_now();
    }
    false
}

/// Gates that wait for each other, each after so many answers, and give these.
fn meetings_of(
    rt: &impl Abort,
    alloc: Global,
    given: &[&[Given]],
    answers: &[u32],
) -> Result<Vec<Meeting>, Alloc> {
    let begun = Arc::new(alloc, AtomicU64::new(0))?;
    let mut gates = Vec::new(alloc);
    for (each, answers) in given.iter().zip(answers) {
        gates.push(Meeting {
            begun: Arc::try_clone(&begun)?,
            all: given.len() as u64,
            answers: *answers,
            met: false,
            alone: false,
            events: gate_of(rt, alloc, each)?,
        })?;
    }
    Ok(gates)
}

#[test]
fn receivers_of_gates_that_wait_for_each_other(rt: HostRuntime) -> Result<(), Fail> {
    for (answers, case) in MEETINGS {
        let mut gates = meetings_of(&rt, rt.alloc(), case.gates, answers)?;
        let received = received_of(&rt, rt.alloc(), &mut gates, case.goal)?;
        compare(&rt, received, case);
        for gate in &gates {
            assert!(rt; gate.met && !gate.alone, "{}", case.name);
        }
    }
    Ok(())
}

/// Lets a worker by itself bring three rows of generation 0 and one of generation 1. It freezes generation 0 at the goal of 3,
/// and none where there is no goal.
fn expect_worker(rt: &impl Abort, alloc: Global, goal: Option<u32>) -> Result<(), Fail> {
    let ticket = ticket_of_one_byte(rt)?;
    let gate = gate_of(rt, alloc, &[FIRST, Given::Rows(&[(1, 8)]), Given::End])?;
    let (table, mut founder) = GenTable::new(alloc, &ticket, 1)?;
    let Ok(pass) = founder.pass(alloc, &table) else {
        return Err(Alloc)?;
    };
    let Ok(mut worker) = Worker::new(alloc, pass, gate, &ticket) else {
        return Err(Alloc)?;
    };
    assert_eq!(rt; seen(&worker.counts()), (None, 0, 0));
    work(&mut worker, &table, &ticket, &plan_of(goal));
    assert_eq!(rt; seen(&worker.counts()), (Some(Ended::End), 3, 4));
    let answer = worker.answer(0);
    assert_eq!(rt; answer.is_some(), goal.is_some());
    assert!(rt; answer.is_none_or(|answer| is_answer(&answer, Some(5))));
    assert!(rt; worker.answer(1).is_none());
    let (pass, gate) = worker.into_parts();
    assert_eq!(rt; pass.known_closed(0), goal.is_some());
    assert!(rt; !pass.known_closed(1));
    assert_eq!(rt; (pass.rows_seen(0).len(), pass.rows_seen(1).len()), (3, 1));
    assert_eq!(rt; gate.faults(), 0);
    founder.take_back(&table, pass);
    assert_eq!(rt; founder.out(), 0);
    Ok(())
}

#[test]
fn worker_by_itself(rt: HostRuntime) -> Result<(), Fail> {
    expect_worker(&rt, rt.alloc(), None)?;
    expect_worker(&rt, rt.alloc(), Some(3))
}

/// The largest ticket: 16,384 generations.
const LARGEST: &str = "kk1:00000001:2:0000000000000003:1:1:4096";

/// There is memory for a receiver of sixteen gates at the largest ticket.
#[test]
fn sixteen_gates_at_the_largest_ticket(rt: HostRuntime) -> Result<(), Fail> {
    let alloc = rt.alloc();
    let ticket = Ticket::read(LARGEST)?;
    assert_eq!(rt; ticket.generations(), 16_384);
    let opened = Receiver::<MemoryGate>::new(alloc, &ticket, MAX_GATES);
    assert!(rt; opened.is_ok());
    Ok(())
}
