//! When the client of a site's session that waits for a job is gone.
ghost use Rattle.std.specs.Prelude.{◌≡◌};
ghost use Rattle.site_rules.specs.Watches.{watch_after, is_gone};

/// What is seen of a connection that isn't read.
#[derive(Clone, Copy, Debug, PartialEq, Eq)]
pub enum ClientState {
    /// Nothing, or bytes that wait to be read.
    Silent,
    /// The client has ended its input.
    Ended,
    /// The connection is lost.
    Lost,
}

/// Since when a client's input has ended, if it has.
#[derive(Clone, Copy, Debug, PartialEq, Eq)]
pub struct Watch {
    /// Since when.
    pub since: Option<u64>,
}

impl Watch {
    /// Of a client whose input hasn't ended.
    pub const NOTHING: Watch = Watch { since: None };

    /// What is known of a waiting session's client after one more look at its connection.
    pub fn after(self, seen: ClientState, now: u64) -> Watch
        ensures { result ≡ watch_after self seen now }
    {
        match (seen, self.since) {
            (ClientState::Silent, _) => Watch { since: None },
            (_, Some(since)) => Watch { since: Some(since) },
            (_, None) => Watch { since: Some(now) },
        }
    }

    /// Whether the client is gone, by what was seen last: at once where the connection is lost, and where its input has ended after
    /// `hangup`.
    pub fn is_gone(self, seen: ClientState, now: u64, hangup: u64) -> bool
        ensures { result ≡ is_gone self seen now hangup }
    {
        match seen {
            ClientState::Silent => false,
            ClientState::Lost => true,
            ClientState::Ended => match self.since {
                Some(since) => hangup <= now.saturating_sub(since),
                None => false,
            },
        }
    }
}
