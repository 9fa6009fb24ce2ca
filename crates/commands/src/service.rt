//! What `othello serve` runs with: how many sessions, its port, its workers, the segments and nodes of all tenants, and
//! the grain.
ghost use Rattle.std.specs.Prelude.{◌≤◌};

use sched_rules::Worker;
use tcp_server::desk::Config;

/// What the command line asks of a server.
#[derive(Clone, Copy)]
pub struct Service {
    /// How many sessions it serves before it ends.
    pub sessions: u16,
    /// Its port; at 0 the system chooses one.
    pub port: u16,
    /// How many workers it has.
    pub workers: Worker,
    /// The segments and nodes of all tenants together.
    pub config: Config,
    /// The greatest remaining depth that one worker searches by itself, 0 to 6.
    pub grain: u8,
    ghost limit: { grain ≤ 6 },
}
