//! What the handler of a site's session asks of beside the session's office: who may enter.
ghost use Rattle.std.specs.Prelude.{◌≡◌, Option};
ghost use Rattle.std.specs.Option.{option_copied};

/// Whether it is known who says HELLO.
#[derive(Clone, Copy, Debug, PartialEq, Eq)]
pub enum Greeted {
    /// It is known whose the session is to be.
    Known,
    /// Nobody has the token.
    Unknown,
    /// Its customer has too many connections.
    Crowded,
}

/// What a customer may have and has. A segment is 16 words of 64 bits, a node is one frame opened.
#[derive(Clone, Copy, Debug, PartialEq, Eq)]
pub struct Info {
    /// The depth of the leaves that workers compute.
    pub grain: u8,
    /// The segments that all sessions of the customer may reserve together.
    pub may_segments: u64,
    /// The nodes that they may.
    pub may_nodes: u64,
    /// The segments that they reserve now.
    pub has_segments: u64,
    /// The nodes that they do.
    pub has_nodes: u64,
}

/// What a handler asks for a connection, beside its session's office. Each implementation says by `greets`, `pays` and `informs` what its
/// calls may do.
pub trait AccessControl {
    ghost use Rattle.std.specs.Prelude.{ℕ, List, Bool, Option};
    ghost use Rattle.site_office.specs.declared.access.Greeted.{Greeted};
    ghost use Rattle.site_office.specs.declared.access.Info.{Info};

    /// What `greet` may do: the state before it, the token, what is known, and the state after it.
    ghost greets: { Self → Option (List ℕ) → Greeted → Self → Type 0 };

    /// What `pay` may do: the state before it, whether the line passes, and the state after it.
    ghost pays: { Self → Bool → Self → Type 0 };

    /// What `inform` may do.
    ghost informs: { Self → Info → Self → Type 0 };

    /// Says whose the next session is to be: that of the customer who has this token, or without one of whoever the connection is.
    fn greet(&mut self, token: Option<&[u8]>) -> Greeted
        ensures { greets self.old (option_copied token.entry) result self.new };

    /// Pays for a line that asks for a reservation: false where too many came in a time.
    fn pay(&mut self) -> bool
        ensures { pays self.old result self.new };

    /// Tells what the session's customer may have and what it has.
    fn inform(&mut self) -> Info
        ensures { informs self.old result self.new };
}
