//! The sockets that the words name.
ghost use Rattle.std.specs.Prelude.{◌≡◌, ◌≤◌, IfOk, length};
ghost use Rattle.kk_workers.specs.declared.running.TheConstants.{MAX_GATES};

use kk_outside::{OpenFault, UdpGate, UdpOutlet};
use kk_top::{MAX_GATES, WordsFault, places};
use std::alloc::Global;
use std::net::TcpListener;

/// Why the sockets aren't open.
#[derive(Debug, Drop)]
pub(crate) enum Unopened {
    /// There is no memory.
    Alloc,
    /// The system refused this address or its socket.
    Cannot(String),
}

/// A gate at each address LISTEN, in order, and an outlet to TARGET, or one without a socket where there is none.
#[derive(Drop)]
pub(crate) struct Sockets {
    pub(crate) gates: Vec<UdpGate>,
    pub(crate) outlet: UdpOutlet,
}

impl Sockets {
    /// The sockets that the words name. There are none where the words aren't of a command's form, or name more addresses
    /// than a receiver listens at: the command then refuses them.
    ///
    /// The outlet is opened first, so that TARGET is named where LISTEN can't be opened either.
    pub(crate) fn open(
        rt: &HostRuntime,
        alloc: Global,
        words: &[String],
    ) -> Result<Sockets, Unopened>
        ensures { IfOk result (λ sockets. length sockets.gates.items ≤ 16) }
    {
        let addresses = match places(alloc, words) {
            Ok(addresses) => addresses,
            Err(WordsFault::Words) => return Ok(Sockets::none(alloc)),
            Err(WordsFault::Alloc) => return Err(Unopened::Alloc),
        };
        let listen = addresses.listen();
        if listen.len() > MAX_GATES {
            return Ok(Sockets::none(alloc));
        }
        let _held = [placeholder(rt), placeholder(rt), placeholder(rt)];
        let outlet = outlet_to(rt, alloc, addresses.target())?;
        let gates = gates_at(rt, alloc, listen)?;
        Ok(Sockets { gates, outlet })
    }

    /// No gate, and an outlet without a socket.
    fn none(alloc: Global) -> Sockets
        ensures { length result.gates.items ≡ 0 }
    {
        Sockets {
            gates: Vec::new(alloc),
            outlet: UdpOutlet::none(),
        }
    }
}

/// Takes the lowest number that is free among those of open files, if the system gives a socket. Three are held while others
/// are opened: else these would take the numbers of standard streams that are closed, and what is written there would be sent.
fn placeholder(rt: &HostRuntime) -> Option<TcpListener> {
    TcpListener::bind(rt, "127.0.0.1:0").ok()
}

/// An outlet to this address, or one without a socket.
fn outlet_to(rt: &HostRuntime, alloc: Global, target: Option<&str>) -> Result<UdpOutlet, Unopened> {
    let Some(target) = target else {
        return Ok(UdpOutlet::none());
    };
    match UdpOutlet::open(rt, target) {
        Ok(outlet) => Ok(outlet),
        Err(fault) => Err(no_socket(alloc, target, fault)),
    }
}

/// A gate at each of these addresses, in order.
fn gates_at(rt: &HostRuntime, alloc: Global, addresses: &[String]) -> Result<Vec<UdpGate>, Unopened>
    ensures { IfOk result (λ gates. length gates.items ≡ length addresses.now) }
{
    let mut gates = Vec::new(alloc);
    for address in addresses {
        let gate = gate_at(rt, alloc, address.as_str())?;
        if gates.push(gate).is_err() {
            return Err(Unopened::Alloc);
        }
    }
    Ok(gates)
}

/// A gate at this address.
fn gate_at(rt: &HostRuntime, alloc: Global, address: &str) -> Result<UdpGate, Unopened> {
    match UdpGate::open(rt, address) {
        Ok(gate) => Ok(gate),
        Err(fault) => Err(no_socket(alloc, address, fault)),
    }
}

/// Why there is no socket for this address.
fn no_socket(alloc: Global, address: &str, fault: OpenFault) -> Unopened {
    match fault {
        OpenFault::Alloc => Unopened::Alloc,
        OpenFault::Cannot => match String::from_str(alloc, address) {
            Ok(address) => Unopened::Cannot(address),
            Err(_) => Unopened::Alloc,
        },
    }
}
