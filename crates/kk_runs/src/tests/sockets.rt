//! A sender and a receiver over real sockets.
ghost use Rattle.std.specs.Prelude.{◌≡◌, IfOk, length};

use super::{expect, objects_of, outcome_over, run_without_gates, unfailing};
use kk_outside::{Alloc, UdpGate, UdpOutlet};
use kk_worked::{ZEROS, texts};
use std::alloc::Global;
use std::net::UdpSocket;
use std::string::ToString;
use std::test::Fail;
use std::thread::Threads;

/// The ticket of a file of one byte in one generation of three rows.
const THREE_FRAMES: &str = "kk1:00000001:8:000000000000001b:3:1:1";

/// Two gates and an outlet to the first; nothing comes to the second.
#[derive(Drop)]
struct Ends {
    address: String,
    gates: Vec<UdpGate>,
    outlet: UdpOutlet,
}

/// An address of this machine at which nobody listens.
fn free_address(rt: &HostRuntime, alloc: Global) -> Result<String, Fail> {
    let socket = UdpSocket::bind(rt, "127.0.0.1:0")?;
    Ok(socket.local_addr()?.to_string(alloc)?)
}

/// Gates at this address, and at one to which nothing comes.
fn two_gates(rt: &HostRuntime, alloc: Global, address: &str) -> Result<Vec<UdpGate>, Fail>
    ensures { IfOk result (λ gates. length gates.items ≡ 2) }
{
    let first = UdpGate::open(rt, address)?;
    let second = UdpGate::open(rt, "127.0.0.1:0")?;
    Ok(Vec::from_array(alloc, [first, second])?)
}

fn two_ends(rt: &HostRuntime, alloc: Global) -> Result<Ends, Fail>
    ensures { IfOk result (λ ends. length ends.gates.items ≡ 2) }
{
    let address = free_address(rt, alloc)?;
    let gates = two_gates(rt, alloc, &address)?;
    let outlet = UdpOutlet::open(rt, &address)?;
    Ok(Ends {
        address,
        gates,
        outlet,
    })
}

/// Sends one byte, and answers the status.
fn send_byte<R: Threads + Sync>(
    rt: &R,
    alloc: Global,
    byte: u8,
    target: &str,
    outlet: &mut UdpOutlet,
) -> Result<u8, Alloc> {
    let words = texts(alloc, &["send", THREE_FRAMES, target, "--seed", ZEROS])?;
    let mut objects = objects_of(alloc, &unfailing(&[], &[byte]))?;
    Ok(run_without_gates(
        rt,
        alloc,
        &words,
        &mut objects.source,
        &mut objects.file,
        &mut objects.report,
        outlet,
    ))
}

/// The gate to which nothing comes ends after three quiets.
const REPORT: &[u8] = b"generations 1\n\
    gate 0 end datagrams 2 frames 3 badlength 0 magic 0 version 0 kind 0 session 0 generation 0 row 0 endrow 0\n\
    gate 1 idle datagrams 0 frames 0 badlength 0 magic 0 version 0 kind 0 session 0 generation 0 row 0 endrow 0\n\
    generation 0 rank 3 decoded\n\
    inserts 3 innovative 3 redundant 0 late 0\n\
    status 0\n";

/// A sender and a receiver: what is sent waits in the system, so that one thread does both.
#[test]
fn two_ends_over_loopback(rt: HostRuntime) -> Result<(), Fail> {
    let alloc = rt.alloc();
    let mut ends = two_ends(&rt, alloc)?;
    let status = send_byte(&rt, alloc, 0x6b, &ends.address, &mut ends.outlet)?;
    assert_eq!(rt; status, 0);
    let words = &[
        "recv",
        THREE_FRAMES,
        &ends.address,
        "127.0.0.1:0",
        "--idle",
        "3",
    ];
    let outcome = outcome_over(&rt, alloc, &unfailing(words, &[]), &mut ends.gates)?;
    expect(&rt, &outcome, 0, &[0x6b], REPORT);
    Ok(())
}
