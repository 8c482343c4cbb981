//! An outlet, where datagrams go out.
ghost use Rattle.std.specs.Prelude.{◌≡◌, ◌<◌, length};
ghost use Rattle.kk_outside.specs.Causes.{HasCause};
ghost use Rattle.kk_outside.specs.Change.{change};
ghost use Rattle.kk_outside.specs.Outlet.{OutletTold, SendsTo};

use crate::Failed;

/// Where datagrams go out. It can be moved into a worker, and dropped with it.
pub trait Outlet: Drop {
    /// What its sends so far came to; and how often it failed, a count that stops at 2^64 - 1.
    ghost told: { Self → OutletTold };

    /// Sends this datagram, which isn't empty, whole; after `Failed` nothing of it.
    fn send(&mut self, datagram: &[u8]) -> Result<(), Failed>
        requires { 0 < length datagram.now }
        ensures sends { SendsTo (change (told self.old) (told self.new)) result datagram.now }
        ensures cause { HasCause (told self.old).faults (told self.new).faults result };
}
