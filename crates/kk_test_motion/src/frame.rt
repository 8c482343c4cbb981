//! Frames under the ticket of a file of one byte, and the intake of a gate.
ghost use Rattle.std.specs.Prelude.{◌≡◌, ◌^◌, ◌<◌, ◌≤◌, [], ◌∷◌, Ok, IfOk, IfSome};
ghost use Rattle.kk_code.specs.Codeword.{width};
ghost use Rattle.kk_code.specs.Ticket.{generations};
ghost use Rattle.kk_outside.specs.declared.event.Event.TheVariants.{Datagram};
ghost use Rattle.kk_frame.specs.Frame.{Vector, frame_read};
ghost use Rattle.kk_frame.specs.Events.{counts};

use kk_code::Ticket;
use kk_frame::{
    Ended, FRAME_BYTES, Frame, FrameFault, GateCount, Intake, Limits, Refused, frames_of,
    read_frame, write_frame,
};
use kk_rows::Row;
use kk_worked::{ONE_BYTE, frame};
use std::process::Abort;
use std::test::*;

/// The ticket of a file of one byte: three generations, and rows of six bits.
fn one_byte(rt: &impl Abort) -> Result<Ticket, Fail>
    ensures { IfOk result (λ t. (generations t ≡ 3) × (width t.code ≡ 6)) }
{
    let ticket = Ticket::read(ONE_BYTE)?;
    assert_eq!(rt; ticket.generations(), 3);
    assert_eq!(rt; ticket.code().width(), 6);
    Ok(ticket)
}

/// A data frame with this byte at a place.
fn altered(at: usize, byte: u8) -> [u8; FRAME_BYTES]
    requires { at < FRAME_BYTES }
{
    let mut bytes = frame(0, 0, 13);
    bytes[at] = byte;
    bytes
}

fn vector(generation: u32, row: u64) -> Result<Frame, FrameFault> {
    Ok(Frame::Vector {
        generation,
        row: Row(u128::from(row)),
    })
}

#[test]
fn frames_of_three_generations_of_six_bits(rt: HostRuntime) -> Result<(), Fail> {
    let ticket = one_byte(&rt)?;
    for (kind, generation, row, read) in [
        (0, 0, 0, vector(0, 0)),
        (0, 2, 63, vector(2, 63)),
        (0, 0, 64, Err(FrameFault::Row)),
        (0, 3, 0, Err(FrameFault::Generation)),
        (0, 3, 64, Err(FrameFault::Generation)),
        (1, 0, 0, Ok(Frame::End)),
        (1, 1, 0, Err(FrameFault::EndRow)),
        (1, 0, 1, Err(FrameFault::EndRow)),
        (2, 0, 0, Err(FrameFault::Kind)),
    ] {
        let bytes = frame(kind, generation, row);
        assert_eq!(rt;
            read_frame(&bytes, &ticket),
            read,
            "at {kind} {generation} {row}"
        );
    }
    Ok(())
}

#[test]
fn faults_of_the_first_eight_bytes(rt: HostRuntime) -> Result<(), Fail> {
    let ticket = one_byte(&rt)?;
    for (at, byte, fault) in [
        (0, 76, FrameFault::Magic),
        (1, 107, FrameFault::Magic),
        (2, 2, FrameFault::Version),
        (3, 255, FrameFault::Kind),
        (4, 1, FrameFault::Session),
        (7, 2, FrameFault::Session),
    ] {
        assert_eq!(rt;
            read_frame(&altered(at, byte), &ticket),
            Err(fault),
            "at {at}"
        );
    }
    Ok(())
}

#[test]
fn frames_as_bytes(rt: HostRuntime) -> Result<(), Fail> {
    let ticket = one_byte(&rt)?;
    let row = Frame::Vector {
        generation: 2,
        row: Row(32),
    };
    let mut bytes = [9; 20];
    write_frame(&row, &ticket, &mut bytes);
    assert_eq!(rt; bytes, frame(0, 2, 32));
    write_frame(&Frame::End, &ticket, &mut bytes);
    assert_eq!(rt; bytes, frame(1, 0, 0));
    Ok(())
}

/// The row of generation 0 that the bytes are.
fn first_row(bytes: &[u8; FRAME_BYTES], ticket: &Ticket) -> Option<Row>
    ensures read { IfSome result (λ row. frame_read ticket.now bytes.now ≡ Ok (Vector 0 row.0)) }
    ensures below { IfSome result (λ row. row.0 < 2 ^ width ticket.now.code) }
{
    match read_frame(bytes, ticket) {
        Ok(Frame::Vector { generation: 0, row }) => Some(row),
        _ => None,
    }
}

/// The counts of a gate that gives one datagram and no more.
fn counts_of(datagram: &[u8], ticket: &Ticket, limits: Limits) -> GateCount
    requires idle { 1 ≤ limits.idle }
    requires most { 1 ≤ limits.most }
    ensures { result ≡ counts FRAME_BYTES ticket.now limits (Datagram datagram.now ∷ []) }
{
    let mut intake = Intake::new(limits);
    let _ = intake.datagram(datagram, ticket);
    if intake.runs() {
        intake.over();
    }
    intake.counts()
}

#[test]
fn lengths_of_datagrams(rt: HostRuntime) {
    let bytes = [0; 660];
    for (len, frames) in [
        (0, None),
        (19, None),
        (20, Some(1)),
        (640, Some(32)),
        (641, None),
        (660, None),
    ] {
        let read = frames_of(&bytes[..len]).ok().map(|frames| frames.len());
        assert_eq!(rt; read, frames, "{len} bytes");
    }
}

/// The counts of a gate with these events, at most 3 datagrams and 2 quiets in a row: `v` is a datagram of one data
/// frame, `x` one of 19 bytes, `e` one with an END, `l` one of a data frame, an END and a data frame, and `q` a quiet.
fn counts_at(events: &str, ticket: &Ticket) -> GateCount {
    let data = frame(0, 0, 13);
    let end = frame(1, 0, 0);
    let mut intake = Intake::new(Limits { idle: 2, most: 3 });
    for event in events.as_bytes() {
        if !intake.runs() {
            return intake.counts();
        }
        match event {
            b'v' => drop(intake.datagram(&data, ticket)),
            b'x' => drop(intake.datagram(&data[..19], ticket)),
            b'e' => drop(intake.datagram(&end, ticket)),
            b'l' => drop(intake.datagram([data, end, data].as_flattened(), ticket)),
            _ => intake.quiet(),
        }
    }
    if intake.runs() {
        intake.over();
    }
    intake.counts()
}

#[test]
fn events_up_to_the_stop(rt: HostRuntime) -> Result<(), Fail> {
    let ticket = one_byte(&rt)?;
    for (events, ended, datagrams, frames, badlength) in [
        ("", Ended::Over, 0, 0, 0),
        ("qvqvqqv", Ended::Idle, 2, 2, 0),
        ("vxvv", Ended::Most, 3, 2, 1),
        ("vve", Ended::End, 3, 2, 0),
        ("vlv", Ended::End, 2, 2, 0),
    ] {
        let counts = counts_at(events, &ticket);
        assert_eq!(rt; counts.ended, Some(ended), "{events}");
        assert_eq!(rt; counts.datagrams, datagrams, "{events}");
        assert_eq!(rt; counts.frames, frames, "{events}");
        assert_eq!(rt; counts.refused.badlength, badlength, "{events}");
    }
    Ok(())
}

#[test]
fn each_refusal_is_counted_by_its_cause(rt: HostRuntime) -> Result<(), Fail> {
    let ticket = one_byte(&rt)?;
    let pieces = [
        altered(1, 76),
        altered(2, 2),
        altered(3, 2),
        altered(7, 2),
        altered(11, 3),
        altered(19, 64),
        frame(1, 1, 0),
        frame(0, 0, 0),
    ];
    let counts = counts_of(pieces.as_flattened(), &ticket, Limits { idle: 1, most: 2 });
    assert_eq!(rt; counts.ended, Some(Ended::Over));
    assert_eq!(rt; counts.frames, 1);
    let once = Refused {
        badlength: 0,
        magic: 1,
        version: 1,
        kind: 1,
        session: 1,
        generation: 1,
        row: 1,
        endrow: 1,
    };
    assert_eq!(rt; counts.refused, once);
    Ok(())
}
