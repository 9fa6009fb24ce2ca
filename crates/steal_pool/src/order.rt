//! In which order a pool's worker looks for its next task.
ghost use Rattle.std.specs.Prelude.{◌≡◌};
ghost use Rattle.steal_pool.specs.Orders.{is_due, since_after};

/// The two orders in which a worker that is without a frame may look for a task.
#[derive(Clone, Copy, Debug, PartialEq, Eq)]
pub enum Order {
    /// The newest task of its own deque, else the oldest of another's, else a ready frame, for which it waits.
    Specified,
    /// As `Specified`, but each 128th task that it begins is a pick, where there is one: a task that the workplace chooses.
    WithPicks,
}

/// How many tasks a worker has begun since its last pick, up to 127: each 128th is a pick, where its order has picks.
#[derive(Clone, Copy, Debug)]
pub struct Rhythm {
    /// In which order it looks.
    pub order: Order,
    /// How many.
    pub since: u8,
}

/// Each so many-th task of a worker is a pick.
const PICK_EACH: u8 = 128;

impl Rhythm {
    /// The rhythm of a worker that begins: it has begun no task since a pick (a task that the workplace chooses).
    pub fn new(order: Order) -> Rhythm
        ensures order { result.order ≡ order }
        ensures since { result.since ≡ 0 }
    {
        Rhythm { order, since: 0 }
    }

    /// Whether the worker's next task is to be a pick (a task that the workplace chooses), if there is one.
    pub fn is_due(self) -> bool
        ensures { result ≡ is_due self.order self.since }
    {
        match self.order {
            Order::Specified => false,
            Order::WithPicks => self.since >= PICK_EACH - 1,
        }
    }

    /// Notes that the worker has begun a task that was picked.
    pub fn picked(&mut self)
        ensures order { self.new.order ≡ self.old.order }
        ensures since { self.new.since ≡ 0 }
    {
        self.since = 0;
    }

    /// Notes that the worker has begun a task that wasn't picked.
    pub fn begun(&mut self)
        ensures order { self.new.order ≡ self.old.order }
        ensures since { self.new.since ≡ since_after self.old.order self.old.since }
    {
        match self.order {
            Order::Specified => {}
            Order::WithPicks => {
                if self.since < PICK_EACH - 1 {
                    self.since += 1;
                }
            }
        }
    }
}
