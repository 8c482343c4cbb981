//! An outlet over a UDP socket.
ghost use Rattle.std.specs.Prelude.{◌≡◌, ◌↔◌, ◌⊎◌, ◌<◌, [], Ok, Some, pos, true, false, length, IsTrue, IsErr, IsOk, IfOk, OnErr};
ghost use Rattle.std.specs.IoError.{error_kind, raw_os_error};
ghost use Rattle.kk_outside.specs.Causes.{HasCause, one_more};
ghost use Rattle.kk_outside.specs.Change.{change};
ghost use Rattle.kk_outside.specs.Outlet.{SendsTo};
ghost use Rattle.kk_outside.specs.UdpState.{outlet_told, is_passing};

use crate::open_fault::open_fault;
use crate::pace::Pace;
use crate::send_log::SendLog;
use crate::{Failed, OpenFault, Outlet};
use std::io;
use std::io::ErrorKind;
use std::marker::Model;
use std::net::{Ipv4Addr, Ipv6Addr, SocketAddr, ToSocketAddrs, UdpSocket};

/// How often a send is made for which the system has no room.
const TRIES: u32 = 1000;

/// The system's error for a device without room for a packet.
const ENOBUFS: i32 = 105;

/// Sends datagrams to one address by a UDP socket, and tells what the sends came to. It sends no faster than a receiver on the same
/// machine takes them, and waits where the system has no room for one. Each error of the socket is a fault, and so is each
/// send of an outlet that has no socket. That nobody listens at the address is no error.
#[derive(Drop)]
pub struct UdpOutlet {
    link: Option<Link>,
    log: SendLog,
    faults: u64,
}

/// A socket, where it sends, and how fast.
#[derive(Drop)]
struct Link {
    socket: UdpSocket,
    target: SocketAddr,
    pace: Pace,
}

impl Model for UdpOutlet {
    ghost use Rattle.std.specs.Prelude.{is_some};
    ghost use Rattle.kk_outside.specs.UdpState.{UdpOutletState};

    ghost Value = { UdpOutletState };

    ghost view = { λ o. record { has_socket = is_some o.link; sends = o.log; faults = o.faults } };
}

impl UdpOutlet {
    /// An outlet to this address, as `127.0.0.1:9000`. It takes no memory but the system's.
    pub fn open(rt: &HostRuntime, target: &str) -> Result<UdpOutlet, OpenFault>
        ensures { IfOk result (λ o. o ≡ record { has_socket = true; sends = []; faults = 0 }) }
    {
        match Link::open(rt, target) {
            Ok(link) => Ok(UdpOutlet {
                link: Some(link),
                log: SendLog::new(),
                faults: 0,
            }),
            Err(e) => Err(open_fault(e)),
        }
    }

    /// An outlet without a socket, whose sends all fail.
    pub fn none() -> UdpOutlet
        ensures { result ≡ record { has_socket = false; sends = []; faults = 0 } }
    {
        UdpOutlet {
            link: None,
            log: SendLog::new(),
            faults: 0,
        }
    }

    /// How many calls failed; the count stops at 2^64 - 1.
    pub fn faults(&self) -> u64
        ensures { result ≡ self.now.faults }
    {
        self.faults
    }
}

impl Outlet for UdpOutlet {
    ghost told = { outlet_told };

    fn send(&mut self, datagram: &[u8]) -> Result<(), Failed>
        requires { 0 < length datagram.now }
        ensures no_socket { self.old.has_socket ≡ false → IsErr result }
        ensures same_socket { self.new.has_socket ≡ self.old.has_socket }
        ensures failed { OnErr result (self.new.faults ≡ one_more self.old.faults) }

        // what every outlet says
        ensures sends { SendsTo (change (outlet_told self.old) (outlet_told self.new)) result datagram.now }
        ensures cause { HasCause self.old.faults self.new.faults result }
    {
        let outcome = match &mut self.link {
            Some(link) => link.send(datagram),
            None => Err(ErrorKind::NotConnected.into()),
        };
        let answer = answer(outcome, datagram, &mut self.faults);
        self.log.add(answer, datagram);
        answer
    }
}

impl Link {
    /// A link to the first address of this name, by a port of the system's choice.
    fn open(rt: &HostRuntime, target: &str) -> io::Result<Link> {
        let Some(target) = target.to_socket_addrs(rt)?.next() else {
            return Err(ErrorKind::InvalidInput.into());
        };
        let any = match target {
            SocketAddr::V4(_) => SocketAddr::from((Ipv4Addr::UNSPECIFIED, 0)),
            SocketAddr::V6(_) => SocketAddr::from((Ipv6Addr::UNSPECIFIED, 0)),
        };
        Ok(Link {
            socket: UdpSocket::bind(rt, any)?,
            target,
            pace: Pace::new(*rt),
        })
    }

    /// Sends this datagram when its turn comes, and again while the system has no room for it, up to a bound.
    fn send(&mut self, datagram: &[u8]) -> io::Result<usize> {
        self.pace.wait(datagram.len());
        for _ in 0..TRIES {
            match self.send_now(datagram) {
                Err(e) if is_passing(&e) => self.pace.rest(),
                outcome => return outcome,
            }
        }
        self.send_now(datagram)
    }

    /// Sends this datagram at once. A send that a signal interrupts is made again.
    fn send_now(&self, datagram: &[u8]) -> io::Result<usize> {
        for _ in 0..u32::MAX {
            match self.socket.send_to(datagram, self.target) {
                Err(e) if e.kind() == ErrorKind::Interrupted => {}
                outcome => return outcome,
            }
        }
        Err(ErrorKind::Interrupted.into())
    }
}

/// Whether a send with this error may well come out otherwise soon: the system had no room.
fn is_passing(e: &io::Error) -> bool
    ensures { IsTrue result ↔ ((raw_os_error e.now ≡ Some ENOBUFS) ⊎ IsTrue (is_passing (error_kind e.now))) }
{
    e.raw_os_error() == Some(ENOBUFS)
        || matches!(e.kind(), ErrorKind::WouldBlock | ErrorKind::OutOfMemory)
}

/// The answer to a send that came out so: it is a fault unless the whole datagram was taken.
fn answer(outcome: io::Result<usize>, datagram: &[u8], faults: &mut u64) -> Result<(), Failed>
    ensures sent { IsOk result ↔ (outcome ≡ Ok (length datagram.now)) }
    ensures counted { OnErr result (faults.new ≡ one_more faults.old) }
    ensures cause { HasCause faults.old faults.new result }
{
    match outcome {
        Ok(n) if n == datagram.len() => Ok(()),
        _ => {
            *faults = faults.saturating_add(1);
            Err(Failed)
        }
    }
}
