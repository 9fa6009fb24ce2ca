//! A tenant's reservation: so many segments and nodes.
ghost use Rattle.std.specs.Prelude.{◌≡◌, ◌≤◌, ◌↔◌, IsTrue, IsSome, IfSome};

use std::marker::Model;

/// What a tenant reserves: 1 to 4,096 segments and 1 to 65,536 nodes. A segment is 16 words of 64 bits, a node is one
/// frame opened.
#[derive(Clone, Copy, Debug, PartialEq, Eq)]
pub struct Reserve {
    segments: u32,
    nodes: u32,
}

// Clauses see the two amounts.
impl Model for Reserve {
    ghost use Rattle.tenant_quota.specs.Reserves.{ReserveOf, IsWithinLimits};

    ghost Value = { ReserveOf };

    ghost view = { λ r. record { segments = r.segments; nodes = r.nodes } };

    ghost invariant = { λ r. IsWithinLimits (record { segments = r.segments; nodes = r.nodes }) };

    ghost inverse = { λ q. record { segments = q.segments; nodes = q.nodes } };
}

impl Reserve {
    ghost use Rattle.tenant_quota.specs.Reserves.{ReserveOf, IsAbove, IsWithinLimits};

    /// The most segments that one tenant may reserve.
    pub const MAX_SEGMENTS: u32 = 4096;

    /// The most nodes that one tenant may reserve.
    pub const MAX_NODES: u32 = 65536;

    /// The reservation of these amounts; None where one of them is outside its limits.
    pub fn new(segments: u32, nodes: u32) -> Option<Reserve>
        ensures within { IsSome result ↔ IsWithinLimits (record { segments = segments; nodes = nodes }) }
        ensures value { IfSome result (λ r. r ≡ record { segments = segments; nodes = nodes }) }
    {
        if segments < 1 || segments > Self::MAX_SEGMENTS || nodes < 1 || nodes > Self::MAX_NODES {
            return None;
        }
        Some(Reserve { segments, nodes })
    }

    /// The segments reserved, 1 to 4,096.
    pub fn segments(&self) -> u32
        ensures value { result ≡ self.now.segments }
        ensures limits { IsWithinLimits self.now }
    {
        self.segments
    }

    /// The nodes reserved, 1 to 65,536.
    pub fn nodes(&self) -> u32
        ensures value { result ≡ self.now.nodes }
        ensures limits { IsWithinLimits self.now }
    {
        self.nodes
    }

    /// Whether this is at least `now` in both amounts, and more in one or both.
    pub fn is_above(&self, now: &Reserve) -> bool
        ensures { IsTrue result ↔ IsAbove now.now self.now }
    {
        if self.segments < now.segments || self.nodes < now.nodes {
            return false;
        }
        let same = self.segments == now.segments && self.nodes == now.nodes;
        !same
    }
}
