//! Each call outside fails in turn: the status, and what the sinks hold then.
use super::{Setting, expect, front, outcome_of, unfailing};
use kk_outside::Alloc;
use kk_worked::{FIVE, ONE_BYTE, SEVEN, ZERO, capture};
use std::alloc::Global;
use std::process::Abort;
use std::test::Fail;
use std::thread::Threads;

/// The ticket of a file of three bytes: eight generations of the same code.
const THREE_BYTES: &str = "kk1:00000001:3:0000000000000003:3:1:3";

/// The words for a file of one byte, and for one of three bytes.
const ONE: &[&str] = &["unpack", ONE_BYTE];

const THREE: &[&str] = &["unpack", THREE_BYTES];

/// What the byte A0 is told by.
const DONE: &[u8] = b"generations 3\n\
    gate 0 end datagrams 10 frames 9 badlength 0 magic 0 version 0 kind 0 session 0 generation 0 row 0 endrow 0\n\
    generation 0 rank 3 decoded\n\
    generation 1 rank 3 decoded\n\
    generation 2 rank 3 decoded\n\
    inserts 9 innovative 9 redundant 0 late 0\n\
    status 0\n";

/// Runs over the capture of the byte A0, and compares the status and the file.
fn expect_file<R: Threads + Abort + Sync>(
    rt: &R,
    alloc: Global,
    setting: &Setting,
    status: u8,
    file: &[u8],
) -> Result<(), Alloc> {
    let outcome = outcome_of(rt, alloc, setting)?;
    assert_eq!(rt; outcome.status, status);
    assert_eq!(rt; outcome.left.file.bytes(), file);
    Ok(())
}

/// Each read gives one byte. Read number 200 is never made, since END stands before it.
#[test]
fn each_read(rt: HostRuntime) -> Result<(), Fail> {
    let alloc = rt.alloc();
    let bytes = capture(alloc, &[FIVE, ZERO, ZERO])?;
    for read in 0..200 {
        let setting = Setting {
            read: 1,
            source_fails: &[read],
            ..unfailing(ONE, &bytes)
        };
        expect_file(&rt, alloc, &setting, 4, &[])?;
    }
    let setting = Setting {
        read: 1,
        source_fails: &[200],
        ..unfailing(ONE, &bytes)
    };
    expect_file(&rt, alloc, &setting, 0, &[0xa0])?;
    Ok(())
}

/// Words with the most pieces that are taken, and the number of the read that is never made.
const NEVER_MADE: &[(&[&str], &[u64])] = &[
    (&["unpack", ONE_BYTE, "--most", "100000000"], &[10]),
    (&["unpack", ONE_BYTE, "--most", "9"], &[9]),
];

/// No read is made after the last piece that may be taken.
#[test]
fn read_after_the_last_piece(rt: HostRuntime) -> Result<(), Fail> {
    let alloc = rt.alloc();
    let bytes = capture(alloc, &[FIVE, ZERO, ZERO])?;
    for (words, source_fails) in NEVER_MADE {
        let setting = Setting {
            source_fails,
            ..unfailing(words, &bytes)
        };
        expect_file(&rt, alloc, &setting, 0, &[0xa0])?;
    }
    Ok(())
}

/// The number of a write that fails, and what the file's sink has then.
const WRITES: &[(u64, &[u8])] = &[(0, b""), (1, b"\xa0"), (2, b"\xa0\x51")];

/// The capture of these three bytes.
const THREE_CODEWORDS: &[[u8; 3]] = &[FIVE, ZERO, ZERO, FIVE, ZERO, SEVEN, SEVEN, SEVEN];

/// Unpacks a capture of three bytes, by writes of one byte, of which those of these numbers fail.
fn unpacking<'a>(bytes: &'a [u8], file_fails: &'a [u64]) -> Setting<'a> {
    Setting {
        write: 1,
        file_fails,
        ..unfailing(THREE, bytes)
    }
}

/// Each write takes one byte.
#[test]
fn each_write(rt: HostRuntime) -> Result<(), Fail> {
    let bytes = capture(rt.alloc(), THREE_CODEWORDS)?;
    for (write, file) in WRITES {
        let outcome = outcome_of(&rt, rt.alloc(), &unpacking(&bytes, &[*write]))?;
        expect(&rt, &outcome, 5, file, b"status 5\n");
    }
    Ok(())
}

/// Write number 3 is never made.
#[test]
fn write_after_the_last_byte(rt: HostRuntime) -> Result<(), Fail> {
    let bytes = capture(rt.alloc(), THREE_CODEWORDS)?;
    expect_file(
        &rt,
        rt.alloc(),
        &unpacking(&bytes, &[3]),
        0,
        b"\xa0\x51\xff",
    )?;
    Ok(())
}

/// Packs three bytes.
const PACKING: Setting<'static> = Setting {
    words: &["pack", THREE_BYTES],
    bytes: b"\xa0\x51\xff",
    read: 2,
    write: 64,
    file_room: 1000,
    report_write: 100,
    report_room: 100,
    source_fails: &[],
    file_fails: &[],
    report_fails: &[],
};

/// What `pack` wrote is unpacked, byte after byte.
#[test]
fn what_is_packed_is_unpacked(rt: HostRuntime) -> Result<(), Fail> {
    let packed = outcome_of(&rt, rt.alloc(), &PACKING)?;
    let bytes = packed.left.file.bytes();
    let whole = capture(rt.alloc(), THREE_CODEWORDS)?;
    assert_eq!(rt; bytes, whole.as_slice());
    expect_file(&rt, rt.alloc(), &unpacking(bytes, &[]), 0, b"\xa0\x51\xff")?;
    Ok(())
}

/// The report's sink fails: the file stands where there is one.
#[test]
fn each_line_of_a_report(rt: HostRuntime) -> Result<(), Fail> {
    let alloc = rt.alloc();
    let bytes = capture(alloc, &[FIVE, ZERO, ZERO])?;
    let first = Setting {
        report_fails: &[0],
        ..unfailing(ONE, &bytes)
    };
    let outcome = outcome_of(&rt, alloc, &first)?;
    expect(&rt, &outcome, 5, &[0xa0], &[]);
    let second = Setting {
        report_fails: &[1],
        ..unfailing(ONE, &bytes)
    };
    let outcome = outcome_of(&rt, alloc, &second)?;
    expect(&rt, &outcome, 5, &[0xa0], &DONE[..100]);
    Ok(())
}

/// A run that has no file keeps its status, whatever the report's sink does.
#[test]
fn report_of_a_run_without_a_file(rt: HostRuntime) -> Result<(), Fail> {
    let alloc = rt.alloc();
    let bytes = capture(alloc, &[FIVE, ZERO, ZERO])?;
    let cut = Setting {
        report_fails: &[0],
        ..unfailing(ONE, front(&bytes))
    };
    let outcome = outcome_of(&rt, alloc, &cut)?;
    expect(&rt, &outcome, 3, &[], &[]);
    let unread = Setting {
        source_fails: &[1],
        report_fails: &[0],
        ..unfailing(ONE, &bytes)
    };
    let outcome = outcome_of(&rt, alloc, &unread)?;
    expect(&rt, &outcome, 4, &[], &[]);
    let told = Setting {
        report_fails: &[1],
        ..unread
    };
    let outcome = outcome_of(&rt, alloc, &told)?;
    expect(&rt, &outcome, 4, &[], b"input fault\nstatus 4\n");
    Ok(())
}
