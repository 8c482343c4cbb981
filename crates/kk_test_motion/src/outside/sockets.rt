//! Gates and outlets over UDP sockets of this machine.
use kk_outside::{Failed, GATE_BYTES, Gate, Got, OpenFault, Outlet, UdpGate, UdpOutlet};
use std::alloc::Global;
use std::net::UdpSocket;
use std::string::ToString;
use std::test::Fail;

/// An address of this machine at which nobody listens.
fn free_address(rt: &HostRuntime, alloc: Global) -> Result<String, Fail> {
    let socket = UdpSocket::bind(rt, "127.0.0.1:0")?;
    Ok(socket.local_addr()?.to_string(alloc)?)
}

/// Sends a datagram from a socket of its own.
fn send_to(rt: &HostRuntime, address: &str, bytes: &[u8]) -> Result<(), Fail> {
    let sender = UdpSocket::bind(rt, "127.0.0.1:0")?;
    sender.send_to(bytes, address)?;
    Ok(())
}

/// What a gate tells next, and the first four bytes of its buffer, which was zeros.
fn told_next(gate: &mut UdpGate) -> (Result<Got, Failed>, [u8; 4]) {
    let mut buf = [0; GATE_BYTES];
    let got = gate.next(&mut buf);
    (got, [buf[0], buf[1], buf[2], buf[3]])
}

#[test]
fn tells_what_comes_over_loopback(rt: HostRuntime) -> Result<(), Fail> {
    let address = free_address(&rt, rt.alloc())?;
    let mut gate = UdpGate::open(&rt, &address)?;
    send_to(&rt, &address, &[1, 2, 3])?;
    assert_eq!(rt; told_next(&mut gate), (Ok(Got::Datagram(3)), [1, 2, 3, 0]));
    send_to(&rt, &address, &[7; 700])?;
    assert_eq!(rt;
        told_next(&mut gate),
        (Ok(Got::Datagram(GATE_BYTES)), [7; 4])
    );
    assert_eq!(rt; told_next(&mut gate), (Ok(Got::Quiet), [0; 4]));
    assert_eq!(rt; gate.faults(), 0);
    Ok(())
}

/// An outlet to this socket.
fn outlet_to(rt: &HostRuntime, alloc: Global, socket: &UdpSocket) -> Result<UdpOutlet, Fail> {
    let address = socket.local_addr()?.to_string(alloc)?;
    Ok(UdpOutlet::open(rt, &address)?)
}

/// How long the next datagram is, and its first three bytes over zeros.
fn received_next(socket: &UdpSocket) -> Result<(usize, [u8; 3]), Fail> {
    let mut buf = [0; 8];
    let len = socket.recv(&mut buf)?;
    Ok((len, [buf[0], buf[1], buf[2]]))
}

#[test]
fn sends_over_loopback(rt: HostRuntime) -> Result<(), Fail> {
    let receiver = UdpSocket::bind(&rt, "127.0.0.1:0")?;
    let mut outlet = outlet_to(&rt, rt.alloc(), &receiver)?;
    assert_eq!(rt; outlet.send(&[1, 2, 3]), Ok(()));
    assert_eq!(rt; outlet.send(&[4]), Ok(()));
    assert_eq!(rt; received_next(&receiver)?, (3, [1, 2, 3]));
    assert_eq!(rt; received_next(&receiver)?, (1, [4, 0, 0]));
    assert_eq!(rt; outlet.faults(), 0);
    Ok(())
}

/// No datagram of UDP is so long.
#[test]
fn counts_a_send_that_fails(rt: HostRuntime) -> Result<(), Fail> {
    let receiver = UdpSocket::bind(&rt, "127.0.0.1:0")?;
    let mut outlet = outlet_to(&rt, rt.alloc(), &receiver)?;
    assert_eq!(rt; outlet.send(&[0; 70_000]), Err(Failed));
    assert_eq!(rt; outlet.faults(), 1);
    Ok(())
}

#[test]
fn opens_no_address_without_a_port(rt: HostRuntime) {
    let gate = UdpGate::open(&rt, "127.0.0.1");
    assert_eq!(rt; gate.err(), Some(OpenFault::Cannot));
    let outlet = UdpOutlet::open(&rt, "127.0.0.1");
    assert_eq!(rt; outlet.err(), Some(OpenFault::Cannot));
}

#[test]
fn has_no_socket(rt: HostRuntime) {
    let mut outlet = UdpOutlet::none();
    assert_eq!(rt; outlet.send(&[1]), Err(Failed));
    assert_eq!(rt; outlet.faults(), 1);
}
