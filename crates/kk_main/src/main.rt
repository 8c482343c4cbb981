//! The program `kk`: it makes the real source and sinks, and `kk_top::run` does the rest.
#![tactic(auto)]

mod ahead;
mod sockets;

use ahead::Ahead;
use kk_outside::{StdSink, StdSource};
use sockets::{Sockets, Unopened};
use std::alloc::{AllocError, Global};
use std::env;
use std::io::{ErrorKind, Write};
use std::process::ExitCode;

/// The status for want of memory, met before there is a command to run.
const NO_MEMORY: u8 = 8;

/// The status where a socket can't be opened.
const CANNOT_OPEN: u8 = 12;

/// The words of the command line after the program's name. Where they aren't text there are none, which is a faulty
/// command line.
fn words(rt: &HostRuntime, alloc: Global) -> Result<Vec<String>, AllocError> {
    match env::args(rt) {
        Ok(args) => args.skip(1).collect(alloc),
        Err(error) if error.kind() == ErrorKind::OutOfMemory => Err(AllocError),
        Err(_) => Ok(Vec::new(alloc)),
    }
}

/// Tells that there is no socket for an address, and ends the program. A failed write changes no status.
fn refuse(rt: &HostRuntime, unopened: &Unopened) -> ExitCode {
    match unopened {
        Unopened::Alloc => ExitCode::from(NO_MEMORY),
        Unopened::Cannot(address) => {
            let _ = writeln!(rt.stderr(), "cannot open {address}");
            ExitCode::from(CANNOT_OPEN)
        }
    }
}

/// Runs the command that the words name over the standard streams and the sockets of its addresses, and ends with its
/// status.
fn main(rt: HostRuntime) -> ExitCode {
    let alloc = rt.alloc();
    let Ok(words) = words(&rt, alloc) else {
        return ExitCode::from(NO_MEMORY);
    };
    let Sockets {
        mut gates,
        mut outlet,
    } = match Sockets::open(&rt, alloc, &words) {
        Ok(sockets) => sockets,
        Err(unopened) => return refuse(&rt, &unopened),
    };
    let mut source = StdSource::new(Ahead::new(rt.stdin().lock()));
    let mut file = StdSink::new(rt.stdout());
    let mut report = StdSink::new(rt.stderr());
    let mut logs = Vec::new(alloc);
    let status = kk_top::run(
        &rt,
        alloc,
        &words,
        &mut source,
        &mut file,
        &mut report,
        &mut gates,
        &mut outlet,
        &mut logs,
    );
    ExitCode::from(status)
}
