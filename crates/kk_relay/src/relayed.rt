//! What became of a relay's run.
use kk_frame::GateCount;
use std::error::Error;
use std::fmt;

/// What a relay took and sent.
#[derive(Clone, Copy, Debug, PartialEq, Eq)]
pub struct Relayed {
    /// The counts of the gate.
    pub gate: GateCount,
    /// The sum of the ranks of all generations.
    pub innovative: u64,
    /// The data frames that were sent.
    pub sent: u64,
}

/// Why a relay stopped before its list was sent.
#[derive(Clone, Copy, Debug, PartialEq, Eq)]
pub enum RelayFault {
    /// The gate failed. All that is sent for the data frames before went out, and no END.
    Gate,
    /// The outlet failed. No more was sent.
    Outlet,
}

impl fmt::Display for RelayFault {
    ghost use Rattle.std.specs.Prelude.{Some};
    ghost use Rattle.kk_relay.specs.FaultText.{fault_text};

    ghost output = { λ fault. Some (fault_text fault) };

    fn fmt<W: fmt::Write>(&self, f: &mut fmt::Formatter<W>) -> fmt::Result {
        match self {
            RelayFault::Gate => write!(f, "the gate failed"),
            RelayFault::Outlet => write!(f, "the outlet failed"),
        }
    }
}

impl Error for RelayFault {}
