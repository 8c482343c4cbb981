//! A gate over a UDP socket.
ghost use Rattle.std.specs.Prelude.{◌≡◌, [], IsErr, IfOk, IfErr, OnErr};
ghost use Rattle.std.specs.Bool.{OnTrue, OnFalse};
ghost use Rattle.std.specs.Io.{ReadsAtMost};
ghost use Rattle.std.specs.IoError.{error_kind};
ghost use Rattle.kk_outside.specs.Causes.{HasCause, one_more};
ghost use Rattle.kk_outside.specs.Change.{change};
ghost use Rattle.kk_outside.specs.Gate.{TellsFrom};
ghost use Rattle.kk_outside.specs.UdpState.{gate_told, is_wait_end};

use crate::event_log::EventLog;
use crate::open_fault::open_fault;
use crate::{Failed, GATE_BYTES, Gate, Got, OpenFault};
use std::io;
use std::io::ErrorKind;
use std::marker::Model;
use std::net::UdpSocket;
use std::time::{Clock, Duration};

/// How long a call waits for a datagram, in milliseconds.
const WAIT_MILLIS: u64 = 100;

/// Tells the datagrams that come to a UDP socket, and never that they are over. A call that gets none within 100 ms
/// tells a quiet. A receive that a signal interrupts is made again, and is neither a quiet nor a fault. Each other error of
/// the socket is a fault.
#[derive(Drop)]
pub struct UdpGate {
    socket: UdpSocket,
    clock: HostRuntime,
    log: EventLog,
    faults: u64,
}

impl Model for UdpGate {
    ghost use Rattle.kk_outside.specs.UdpState.{UdpGateState};

    ghost Value = { UdpGateState };

    ghost view = { λ g. record { events = g.log.events; faults = g.faults } };
}

impl UdpGate {
    /// A gate at this address, as `127.0.0.1:9000`. It takes no memory but the system's.
    pub fn open(rt: &HostRuntime, address: &str) -> Result<UdpGate, OpenFault>
        ensures { IfOk result (λ g. g ≡ record { events = []; faults = 0 }) }
    {
        match bind(rt, address) {
            Ok(socket) => Ok(UdpGate {
                socket,
                clock: *rt,
                log: EventLog::new(),
                faults: 0,
            }),
            Err(e) => Err(open_fault(e)),
        }
    }

    /// How many calls failed; the count stops at 2^64 - 1.
    pub fn faults(&self) -> u64
        ensures { result ≡ self.now.faults }
    {
        self.faults
    }

    /// One datagram, into the front of `buf`. A receive that a signal interrupts is made again until the wait is over by the
    /// clock, so that signals neither end a wait nor make it last.
    fn receive(&self, buf: &mut [u8]) -> io::Result<usize>
        ensures { ReadsAtMost result buf.new }
    {
        let began = self.clock.monotonic();
        for _ in 0..u32::MAX {
            match self.socket.recv(buf) {
                Err(e) if e.kind() == ErrorKind::Interrupted && !self.has_waited(&began) => {}
                Err(e) if e.kind() == ErrorKind::Interrupted => break,
                outcome => return outcome,
            }
        }
        Err(ErrorKind::TimedOut.into())
    }

    /// Whether the time of a wait is over that began then, as far as the clock tells.
    fn has_waited(&self, began: &io::Result<Duration>) -> bool {
        match (began, self.clock.monotonic()) {
            (Ok(began), Ok(now)) => {
                now.saturating_sub(*began) >= Duration::from_millis(WAIT_MILLIS)
            }
            _ => false,
        }
    }
}

/// A socket at this address, which waits so long for a datagram and no longer.
fn bind(rt: &HostRuntime, address: &str) -> io::Result<UdpSocket> {
    let socket = UdpSocket::bind(rt, address)?;
    socket.set_read_timeout(Some(Duration::from_millis(WAIT_MILLIS)))?;
    Ok(socket)
}

impl Gate for UdpGate {
    ghost told = { gate_told };

    fn next(&mut self, buf: &mut [u8; GATE_BYTES]) -> Result<Got, Failed>
        ensures never_over { IfOk result (λ got. ¬ (got ≡ Got.Over)) }
        ensures failed { OnErr result (self.new.faults ≡ one_more self.old.faults) }

        // what every gate says
        ensures tells { TellsFrom (change (gate_told self.old) (gate_told self.new)) result buf.new }
        ensures cause { HasCause self.old.faults self.new.faults result }
    {
        let outcome = self.receive(buf);
        let answer = answer(outcome, &mut self.faults);
        self.log.add(answer, buf);
        answer
    }
}

/// The answer to a receive that came out so: an error that says that none came is a quiet, each other one a fault.
fn answer(outcome: io::Result<usize>, faults: &mut u64) -> Result<Got, Failed>
    ensures datagram { IfOk outcome (λ n. result ≡ Ok (Got.Datagram n)) }
    ensures quiet { IfErr outcome (λ e. OnTrue (is_wait_end (error_kind e)) (result ≡ Ok Got.Quiet)) }
    ensures fault { IfErr outcome (λ e. OnFalse (is_wait_end (error_kind e)) (IsErr result)) }
    ensures never_over { IfOk result (λ got. ¬ (got ≡ Got.Over)) }
    ensures counted { OnErr result (faults.new ≡ one_more faults.old) }
    ensures cause { HasCause faults.old faults.new result }
{
    match outcome {
        Ok(n) => Ok(Got::Datagram(n)),
        Err(e) if ended_wait(&e) => Ok(Got::Quiet),
        Err(_) => {
            *faults = faults.saturating_add(1);
            Err(Failed)
        }
    }
}

/// Whether a receive with this error got no datagram, and no more: it waited for as long as it may.
fn ended_wait(e: &io::Error) -> bool
    ensures { result ≡ is_wait_end (error_kind e.now) }
{
    matches!(e.kind(), ErrorKind::WouldBlock | ErrorKind::TimedOut)
}
