//! A sender over sources and outlets in memory.
ghost use Rattle.std.specs.Prelude.{◌≡◌, ◌≤◌, vec_len, IfSome};
ghost use Rattle.kk_outside.specs.Outlet.{append_datagrams};
ghost use Rattle.kk_outside.specs.Generator.{word_at};
ghost use Rattle.kk_sender.specs.SentFrames.{sent_datagrams};

use crate::words::Words;
use kk_code::Ticket;
use kk_outside::{MemoryOutlet, MemorySource, Outlet, Room, Source};
use kk_sender::{SendFault, Sender, Sent, read_file};
use kk_worked::{ONE_BYTE, frame};
use rand_core::Rng;
use std::alloc::{AllocError, Global};
use std::test::Fail;

/// Sends the file that the bytes are, without combinations, and answers how many datagrams that made, where all went out.
fn send_bytes<R: Rng, O: Outlet>(
    alloc: Global,
    ticket: &Ticket,
    bytes: Vec<u8>,
    rng: &mut R,
    outlet: &mut O,
) -> Option<u64>
    requires { vec_len bytes ≡ ticket.now.length }
    ensures { IfSome result (λ _. (O.told outlet.new).sends ≡ append_datagrams (O.told outlet.old).sends
        (sent_datagrams ticket.now bytes.items 0 32 (word_at (R.stream rng.old)))) }
{
    let mut source = MemorySource::new(bytes, 4096, Vec::new(alloc));
    let Ok(mut sender) = Sender::new(alloc, ticket) else {
        return None;
    };
    match sender.send_all(&mut source, rng, 0, 32, outlet) {
        Ok(sent) => Some(sent.datagrams),
        Err(_) => None,
    }
}

/// The words 3, 0 and 7.
const THREE_WORDS: [u64; 11] = [3, 0, 7, 0, 0, 0, 0, 0, 0, 0, 0];

/// Data frames of these generations and rows, one after another.
fn frames(alloc: Global, rows: &[(u8, u8)]) -> Result<Vec<u8>, AllocError> {
    let mut bytes = Vec::new(alloc);
    for (generation, row) in rows {
        bytes.extend_from_slice(&frame(0, *generation, *row))?;
    }
    Ok(bytes)
}

/// What is under a sending: the ticket, the bytes of the source and how many a read gives, and the numbers of the calls
/// that fail.
#[derive(Clone, Copy, Drop)]
struct Setting<'a> {
    ticket: &'a str,
    bytes: &'a [u8],
    read: usize,
    source_fails: &'a [u64],
    outlet_fails: &'a [u64],
}

/// The byte A0, in one read.
const A0: Setting<'static> = Setting {
    ticket: ONE_BYTE,
    bytes: &[0xa0],
    read: 4096,
    source_fails: &[],
    outlet_fails: &[],
};

/// What a sending answered, and what was sent.
#[derive(Drop)]
struct Outcome {
    answer: Result<Sent, SendFault>,
    outlet: MemoryOutlet,
}

/// Sends in datagrams of `pack` frames, with `extra` combinations a generation by the words 3, 0, 7.
fn send_in(alloc: Global, setting: &Setting, extra: u32, pack: u32) -> Result<Outcome, Fail>
    requires extra { extra ≤ 1024 }
    requires some { 1 ≤ pack }
    requires pack { pack ≤ 32 }
{
    let ticket = Ticket::read(setting.ticket)?;
    let bytes = setting.bytes.to_vec(alloc)?;
    let mut source = MemorySource::new(
        bytes,
        setting.read.max(1),
        setting.source_fails.to_vec(alloc)?,
    );
    let mut outlet = MemoryOutlet::new(alloc, 1000, setting.outlet_fails.to_vec(alloc)?)?;
    let mut rng = Words::new(THREE_WORDS);
    let mut sender = Sender::new(alloc, &ticket)?;
    let answer = sender.send_all(&mut source, &mut rng, extra, pack, &mut outlet);
    Ok(Outcome { answer, outlet })
}

/// The datagram that was sent after `i` others; none where there are no more.
fn datagram(outlet: &MemoryOutlet, i: usize) -> &[u8] {
    if i < outlet.sent() {
        outlet.datagram(i)
    } else {
        &[]
    }
}

#[test]
fn three_datagrams_of_three_frames_and_end(rt: HostRuntime) -> Result<(), Fail> {
    let alloc = rt.alloc();
    let outcome = send_in(alloc, &A0, 0, 3)?;
    let sent = Sent {
        frames: 10,
        datagrams: 4,
    };
    assert_eq!(rt; outcome.answer, Ok(sent));
    assert_eq!(rt; outcome.outlet.sent(), 4);
    for (i, rows) in [[13, 17, 34], [8, 16, 32], [8, 16, 32]].iter().enumerate() {
        let g = i as u8;
        let expected = frames(alloc, &[(g, rows[0]), (g, rows[1]), (g, rows[2])])?;
        assert_eq!(rt; datagram(&outcome.outlet, i), expected.as_slice());
    }
    assert_eq!(rt; datagram(&outcome.outlet, 3), frame(1, 0, 0).as_slice());
    Ok(())
}

#[test]
fn a_combination_of_each_generation(rt: HostRuntime) -> Result<(), Fail> {
    let alloc = rt.alloc();
    let outcome = send_in(alloc, &A0, 1, 32)?;
    let sent = Sent {
        frames: 13,
        datagrams: 2,
    };
    assert_eq!(rt; outcome.answer, Ok(sent));
    assert_eq!(rt; outcome.outlet.sent(), 2);
    let expected = frames(
        alloc,
        &[
            (0, 13),
            (0, 17),
            (0, 34),
            (0, 28),
            (1, 8),
            (1, 16),
            (1, 32),
            (1, 0),
            (2, 8),
            (2, 16),
            (2, 32),
            (2, 56),
        ],
    )?;
    assert_eq!(rt; datagram(&outcome.outlet, 0), expected.as_slice());
    assert_eq!(rt; datagram(&outcome.outlet, 1), frame(1, 0, 0).as_slice());
    Ok(())
}

#[test]
fn datagrams_across_generations(rt: HostRuntime) -> Result<(), Fail> {
    let alloc = rt.alloc();
    let outcome = send_in(alloc, &A0, 0, 5)?;
    let sent = Sent {
        frames: 10,
        datagrams: 3,
    };
    assert_eq!(rt; outcome.answer, Ok(sent));
    let first = frames(alloc, &[(0, 13), (0, 17), (0, 34), (1, 8), (1, 16)])?;
    assert_eq!(rt; datagram(&outcome.outlet, 0), first.as_slice());
    let second = frames(alloc, &[(1, 32), (2, 8), (2, 16), (2, 32)])?;
    assert_eq!(rt; datagram(&outcome.outlet, 1), second.as_slice());
    Ok(())
}

#[test]
fn sources_of_another_length(rt: HostRuntime) -> Result<(), Fail> {
    let alloc = rt.alloc();
    for (ticket, bytes, read, got, more) in [
        (ONE_BYTE, &[] as &[u8], 4096, 0, false),
        (ONE_BYTE, &[0xa0, 0xa0], 4096, 2, true),
        (ONE_BYTE, &[0xa0, 0xa0, 0xa0], 1, 2, true),
        (
            "kk1:00000001:3:0000000000000003:3:1:3",
            &[1, 2],
            1,
            2,
            false,
        ),
        ("kk1:00000001:3:0000000000000003:3:1:0", &[1], 4096, 1, true),
    ] {
        let setting = Setting {
            ticket,
            bytes,
            read,
            ..A0
        };
        let outcome = send_in(alloc, &setting, 0, 3)?;
        assert_eq!(rt; outcome.answer, Err(SendFault::Length { got, more }));
        assert_eq!(rt; outcome.outlet.sent(), 0);
    }
    Ok(())
}

#[test]
fn reads_that_fail(rt: HostRuntime) -> Result<(), Fail> {
    let alloc = rt.alloc();
    // also the read that looks for the end
    for fails in [&[0u64], &[1]] {
        let setting = Setting {
            source_fails: fails,
            ..A0
        };
        let outcome = send_in(alloc, &setting, 0, 3)?;
        assert_eq!(rt; outcome.answer, Err(SendFault::Read));
        assert_eq!(rt; outcome.outlet.sent(), 0);
    }
    Ok(())
}

#[test]
fn sends_that_fail(rt: HostRuntime) -> Result<(), Fail> {
    let alloc = rt.alloc();
    for (fails, sent) in [(&[0u64], 0), (&[2], 2), (&[3], 3)] {
        let setting = Setting {
            outlet_fails: fails,
            ..A0
        };
        let outcome = send_in(alloc, &setting, 0, 3)?;
        assert_eq!(rt; outcome.answer, Err(SendFault::Outlet));
        assert_eq!(rt; outcome.outlet.sent(), sent);
        assert_eq!(rt; outcome.outlet.faults(), 1);
    }
    Ok(())
}

#[test]
fn a_file_of_no_bytes_is_sent_as_end(rt: HostRuntime) -> Result<(), Fail> {
    let setting = Setting {
        ticket: "kk1:00000001:3:0000000000000003:3:1:0",
        bytes: &[],
        ..A0
    };
    let outcome = send_in(rt.alloc(), &setting, 1024, 1)?;
    let sent = Sent {
        frames: 1,
        datagrams: 1,
    };
    assert_eq!(rt; outcome.answer, Ok(sent));
    assert_eq!(rt; outcome.outlet.sent(), 1);
    assert_eq!(rt; datagram(&outcome.outlet, 0), frame(1, 0, 0).as_slice());
    Ok(())
}

#[test]
fn bytes_in_memory_are_sent(rt: HostRuntime) -> Result<(), Fail> {
    let alloc = rt.alloc();
    let ticket = Ticket::read(ONE_BYTE)?;
    let bytes = [0xa0u8].to_vec(alloc)?;
    let mut outlet = MemoryOutlet::new(alloc, 1000, Vec::new(alloc))?;
    let mut rng = Words::new(THREE_WORDS);
    let mut datagrams = None;
    if bytes.len() as u64 == ticket.length() {
        datagrams = send_bytes(alloc, &ticket, bytes, &mut rng, &mut outlet);
    }
    assert_eq!(rt; datagrams, Some(2));
    assert_eq!(rt; datagram(&outlet, 0).len(), 180);
    Ok(())
}

#[test]
fn a_file_is_read_by_its_length(rt: HostRuntime) -> Result<(), Fail> {
    let alloc = rt.alloc();
    let ticket = Ticket::read("kk1:00000001:3:0000000000000003:3:1:3")?;
    let mut room = Room::new(alloc, ticket.length() as usize + 1)?;
    assert_eq!(rt; room.as_slice().len(), 4);
    let mut source = MemorySource::new([7u8, 8, 9].to_vec(alloc)?, 2, Vec::new(alloc));
    assert_eq!(rt; read_file(&mut source, room.as_mut_slice()), Ok(()));
    assert_eq!(rt; room.as_slice(), [7, 8, 9, 0].as_slice());
    Ok(())
}
