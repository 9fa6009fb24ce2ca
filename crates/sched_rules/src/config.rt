//! How much a core has to give to all tenants: segments and nodes.
ghost use Rattle.std.specs.Prelude.{◌≡◌, ◌≤◌, ◌↔◌, IsSome, IfSome};

use std::marker::Model;

/// The totals of a core: 1 to 65,536 segments of 16 words, and 1 to 4,194,304 nodes (frames that
/// may be opened).
#[derive(Clone, Copy, Debug, PartialEq, Eq)]
pub struct Config {
    segments: u32,
    nodes: u32,
}

// Clauses see the two totals.
impl Model for Config {
    ghost use Rattle.tenant_quota.specs.Reserves.{ReserveOf};
    ghost use Rattle.sched_rules.specs.Totals.{IsWithinTotals};

    ghost Value = { ReserveOf };

    ghost view = { λ c. record { segments = c.segments; nodes = c.nodes } };

    ghost invariant = { λ c. IsWithinTotals (record { segments = c.segments; nodes = c.nodes }) };

    ghost inverse = { λ q. record { segments = q.segments; nodes = q.nodes } };
}

impl Config {
    ghost use Rattle.tenant_quota.specs.Reserves.{ReserveOf};
    ghost use Rattle.sched_rules.specs.Totals.{IsWithinTotals};

    /// The most segments of a core.
    pub const MAX_SEGMENTS: u32 = 65536;

    /// The most nodes of a core.
    pub const MAX_NODES: u32 = 4194304;

    /// The totals of so many segments and nodes; None where one of them is 0 or above its limit.
    pub fn new(segments: u32, nodes: u32) -> Option<Config>
        ensures within { IsSome result ↔ IsWithinTotals (record { segments = segments; nodes = nodes }) }
        ensures value { IfSome result (λ c. c ≡ record { segments = segments; nodes = nodes }) }
    {
        if segments < 1 || segments > Self::MAX_SEGMENTS || nodes < 1 || nodes > Self::MAX_NODES {
            return None;
        }
        Some(Config { segments, nodes })
    }

    /// How many segments (of 16 words) the core has for all tenants.
    pub fn segments(&self) -> u32
        ensures value { result ≡ self.now.segments }
        ensures limits { IsWithinTotals self.now }
    {
        self.segments
    }

    /// How many nodes the core has for all tenants.
    pub fn nodes(&self) -> u32
        ensures value { result ≡ self.now.nodes }
        ensures limits { IsWithinTotals self.now }
    {
        self.nodes
    }
}
