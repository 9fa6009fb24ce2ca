//! Amounts in the book of a site's customers: sessions, and the segments and nodes that they reserve together.
ghost use Rattle.std.specs.Prelude.{◌≡◌, ◌+◌, ◌<◌, ◌≤◌, ◌^◌};
ghost use Rattle.site_book.specs.Amounts.{is_amount_within, is_same, plus, minus, of_one, IsAmountWithin};

use tenant_quota::Reserve;

/// So many sessions, and the segments and nodes that they reserve together. A segment is 16 words of 64 bits, a node is
/// one frame opened.
#[derive(Clone, Copy, Debug, PartialEq, Eq)]
pub struct Amount {
    /// Sessions at once.
    pub sessions: u32,
    /// Segments of all of them.
    pub segments: u64,
    /// Nodes of all of them.
    pub nodes: u64,
}

impl Amount {
    /// Nothing at all.
    pub const NOTHING: Amount = Amount {
        sessions: 0,
        segments: 0,
        nodes: 0,
    };

    /// Whether this amount is no more than the other in sessions, segments and nodes.
    pub fn is_within(self, other: Amount) -> bool
        ensures { result ≡ is_amount_within self other }
    {
        self.sessions <= other.sessions
            && self.segments <= other.segments
            && self.nodes <= other.nodes
    }

    /// Whether both amounts are the same.
    pub(crate) fn is_same(self, other: Amount) -> bool
        ensures { result ≡ is_same self other }
    {
        self.sessions == other.sessions
            && self.segments == other.segments
            && self.nodes == other.nodes
    }

    /// The amount with one session more, which reserves this.
    pub(crate) fn with_one(self, ask: Reserve) -> Amount
        requires sessions { self.sessions < 2 ^ 31 }
        requires segments { self.segments < 2 ^ 63 }
        requires nodes { self.nodes < 2 ^ 63 }
        ensures value { result ≡ plus (of_one ask) self }
        ensures few_segments { result.segments ≤ self.segments + 4096 }
        ensures few_nodes { result.nodes ≤ self.nodes + 65536 }
    {
        Amount {
            sessions: 1 + self.sessions,
            segments: u64::from(ask.segments()) + self.segments,
            nodes: u64::from(ask.nodes()) + self.nodes,
        }
    }

    /// What is left of an amount without another, which is within it.
    pub(crate) fn less(self, other: Amount) -> Amount
        requires { IsAmountWithin other self }
        ensures { result ≡ minus self other }
    {
        Amount {
            sessions: self.sessions - other.sessions,
            segments: self.segments - other.segments,
            nodes: self.nodes - other.nodes,
        }
    }
}
