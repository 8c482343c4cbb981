//! The outside of a program: where its bytes come from and where they go.
#![tactic(auto)]

mod bytes;
mod event;
mod event_log;
mod failed;
mod fault_plan;
mod gate;
mod got;
mod memory_gate;
mod memory_outlet;
mod memory_sink;
mod memory_source;
mod open_fault;
mod outlet;
mod pace;
mod read_log;
mod room;
mod send_log;
mod sink;
mod source;
mod std_sink;
mod std_source;
mod udp_gate;
mod udp_outlet;
mod write_log;

pub use bytes::Bytes;
pub use event::Event;
pub use failed::Failed;
pub use gate::{GATE_BYTES, Gate, MAX_DATAGRAM_BYTES};
pub use got::Got;
pub use kk_rows::Alloc;
pub use memory_gate::MemoryGate;
pub use memory_outlet::MemoryOutlet;
pub use memory_sink::MemorySink;
pub use memory_source::MemorySource;
pub use open_fault::OpenFault;
pub use outlet::Outlet;
pub use room::Room;
pub use sink::{Sink, write_all};
pub use source::{Source, fill};
pub use std_sink::StdSink;
pub use std_source::StdSource;
pub use udp_gate::UdpGate;
pub use udp_outlet::UdpOutlet;
