//! How far a frame of the search has come, what it is to its parent, and how each of its choices stands.
ghost use Rattle.std.specs.Prelude.{◌≡◌, ◌≤◌};
ghost use Rattle.jamboree.specs.Numbers.{phase_number, role_number, status_number};

/// How far a frame has come.
#[derive(Clone, Copy)]
pub(crate) enum Phase {
    /// It was opened and has done nothing yet. A child doesn't know its board then.
    New,
    /// One worker computes it by itself, outside the scheduler's lock.
    Computing,
    /// Its first choice is searched in full.
    First,
    /// Its other choices are tested, and searched again where a test failed.
    Tests,
    /// It is done: its best score is its minimax value, or a bound of it where the score isn't inside the window.
    Done,
}

impl Phase {
    /// The phase of a frame that this number (0 to 4) stands for.
    pub(crate) fn of(number: u64) -> Phase
        requires { number ≤ 4 }
        ensures { phase_number result ≡ number }
    {
        match number {
            0 => Phase::New,
            1 => Phase::Computing,
            2 => Phase::First,
            3 => Phase::Tests,
            _ => Phase::Done,
        }
    }

    /// The number that stands for the phase in a frame's words.
    pub(crate) fn number(self) -> u64
        ensures { result ≡ phase_number self }
    {
        match self {
            Phase::New => 0,
            Phase::Computing => 1,
            Phase::First => 2,
            Phase::Tests => 3,
            Phase::Done => 4,
        }
    }
}

/// What a frame is to its parent.
#[derive(Clone, Copy)]
pub(crate) enum Role {
    /// It has no parent: it is the root of a job.
    Root,
    /// The full search of the first choice.
    FirstChild,
    /// The test of a later choice.
    Test,
    /// The full search of a choice whose test failed.
    Again,
}

impl Role {
    /// The role of a frame that this number (0 to 3) stands for.
    pub(crate) fn of(number: u64) -> Role
        requires { number ≤ 3 }
        ensures { role_number result ≡ number }
    {
        match number {
            0 => Role::Root,
            1 => Role::FirstChild,
            2 => Role::Test,
            _ => Role::Again,
        }
    }

    /// The number that stands for the role in a frame's words.
    pub(crate) fn number(self) -> u64
        ensures { result ≡ role_number self }
    {
        match self {
            Role::Root => 0,
            Role::FirstChild => 1,
            Role::Test => 2,
            Role::Again => 3,
        }
    }
}

/// How a choice of a frame stands.
#[derive(Clone, Copy)]
pub(crate) enum Status {
    /// No child was opened for it.
    NotSpawned,
    /// Its first search, or its test, runs.
    Runs,
    /// It needs no more search: it is worth at most the best score, or its score has ended the frame.
    Settled,
    /// Its test has failed: it is worth more than the test's window, and is to be searched again.
    Failed,
    /// Its search again runs.
    RunsAgain,
}

impl Status {
    /// The number that stands for the status in an entry.
    pub(crate) fn number(self) -> u64
        ensures value { result ≡ status_number self }
        ensures small { result ≤ 4 }
    {
        match self {
            Status::NotSpawned => 0,
            Status::Runs => 1,
            Status::Settled => 2,
            Status::Failed => 3,
            Status::RunsAgain => 4,
        }
    }
}
