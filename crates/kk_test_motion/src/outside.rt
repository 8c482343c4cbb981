//! Callers of the outside, and gates and outlets in threads.
ghost use Rattle.std.specs.Prelude.{◌≡◌, ◌∷◌, ◌++◌, [], min, length, take, IfOk, IfSome, OnOk};
ghost use Rattle.kk_outside.specs.Causes.{HasCause};
ghost use Rattle.kk_outside.specs.Gate.{events_of_got};
ghost use Rattle.kk_outside.specs.Outlet.{append_datagrams};

mod memory;
mod sockets;
mod streams;

use kk_outside::{
    Failed, GATE_BYTES, Gate, Got, MemoryGate, MemoryOutlet, MemorySource, Outlet, Source, UdpGate,
    UdpOutlet, fill,
};
use std::test::Fail;
use std::thread;

/// The first 20 bytes, or all that there are, and how many that is.
pub fn read_header<S: Source>(source: &mut S) -> Result<(usize, [u8; 20]), Failed>
    ensures count { IfOk result (λ r. IfSome (S.told source.old).left (λ xs. r.0 ≡ min 20 (length xs))) }
    ensures bytes { IfOk result (λ r. IfSome (S.told source.old).left (λ xs. take r.0 r.1 ≡ take 20 xs)) }
    ensures cause { HasCause (S.told source.old).faults (S.told source.new).faults result }
{
    let mut buf = [0; 20];
    let n = fill(source, &mut buf)?;
    Ok((n, buf))
}

/// Sends the byte 1, and answers what the gate tells then.
pub fn ask<G: Gate, O: Outlet>(
    gate: &mut G,
    outlet: &mut O,
    buf: &mut [u8; GATE_BYTES],
) -> Result<Got, Failed>
    ensures asked { OnOk result ((O.told outlet.new).sends ≡ append_datagrams (O.told outlet.old).sends ((1 ∷ []) ∷ [])) }
    ensures told { IfOk result (λ got. (G.told gate.new).events ≡ (G.told gate.old).events ++ events_of_got got buf.new) }
{
    outlet.send(&[1])?;
    gate.next(buf)
}

#[test]
fn a_short_header(rt: HostRuntime) -> Result<(), Fail> {
    let alloc = rt.alloc();
    let mut source = MemorySource::new([1u8, 2, 3].to_vec(alloc)?, 2, Vec::new(alloc));
    let (n, bytes) = read_header(&mut source)?;
    assert_eq!(rt; &bytes[..n], [1, 2, 3].as_slice());
    Ok(())
}

#[test]
fn gates_and_outlets_go_into_threads(rt: HostRuntime) -> Result<(), Fail> {
    let alloc = rt.alloc();
    let mut gate = MemoryGate::new(Vec::new(alloc));
    let mut outlet = MemoryOutlet::new(alloc, 4, Vec::new(alloc))?;
    let mut buf = [0; GATE_BYTES];
    let (got, sent) = thread::join(&rt, || gate.next(&mut buf), || outlet.send(&[1]));
    assert_eq!(rt; got, Ok(Got::Over));
    assert_eq!(rt; sent, Ok(()));
    let mut gate = UdpGate::open(&rt, "127.0.0.1:0")?;
    let mut outlet = UdpOutlet::none();
    let (got, sent) = thread::join(&rt, || gate.next(&mut buf), || outlet.send(&[1]));
    assert_eq!(rt; got, Ok(Got::Quiet));
    assert_eq!(rt; sent, Err(Failed));
    assert_eq!(rt; ask(&mut gate, &mut outlet, &mut buf), Err(Failed));
    Ok(())
}
