//! How fast datagrams go out.

use std::time::{Clock, Duration};

/// How long a byte takes, in nanoseconds: 1.25 million bytes a second.
const NANOS_A_BYTE: u64 = 800;

/// How far the bytes may be ahead of this rate or behind it, in milliseconds.
const SLACK_MILLIS: u64 = 1;

/// Holds datagrams back, so that a receiver can take them out of its socket's buffer before it is full: what the buffer
/// has no room for is lost, many datagrams in a row. It counts bytes, since a receiver has work with each row.
#[derive(Drop)]
pub(crate) struct Pace {
    clock: HostRuntime,
    /// When all bytes so far are out at the rate, by the monotonic clock.
    out_at: Duration,
}

impl Pace {
    /// No byte so far.
    pub(crate) fn new(clock: HostRuntime) -> Pace {
        Pace {
            clock,
            out_at: Duration::ZERO,
        }
    }

    /// Waits until a datagram of so many bytes may go out.
    pub(crate) fn wait(&mut self, bytes: usize) {
        let slack = Duration::from_millis(SLACK_MILLIS);
        let takes = Duration::from_nanos(NANOS_A_BYTE.saturating_mul(bytes as u64));
        let Ok(now) = self.clock.monotonic() else {
            self.clock.sleep(takes);
            return;
        };
        self.out_at = self
            .out_at
            .max(now.saturating_sub(slack))
            .saturating_add(takes);
        let ahead = self.out_at.saturating_sub(now);
        if ahead > slack {
            self.clock.sleep(ahead);
        }
    }

    /// Waits a while, since the system has no room for a datagram.
    pub(crate) fn rest(&self) {
        self.clock.sleep(Duration::from_millis(SLACK_MILLIS));
    }
}
