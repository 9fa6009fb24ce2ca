//! The names that clauses use for the histories of a site's desks.
use std::marker::Brand;

/// A type that stands for the histories of a site's desks. Each desk has a number, by which its history is known: so desks of one type lie
/// in one list, and each has a history of its own.
pub trait SiteNaming {
    ghost use Rattle.std.specs.Prelude.{ℕ};
    ghost use Rattle.atomic_table.specs.Seated.{TableId};
    ghost use Rattle.hall.specs.Halls.{HallOf};
    ghost use Rattle.site_book.specs.Plans.{PlanOf};

    /// The table whose passes know the history of the desk of a number.
    ghost table: { ℕ → TableId };

    /// The hall that the desk of a number was made with, with which its history begins.
    ghost begun: { ℕ → HallOf };

    /// The table whose passes know what the book of that desk granted.
    ghost granted: { ℕ → TableId };

    /// The plan that the book was made with.
    ghost plan: { ℕ → PlanOf };
}

// So that a call may pass `Brand` for `J`. The proof of that call then chooses the ghost members; those here aren't used.
impl SiteNaming for Brand {
    ghost use Rattle.hall.specs.Halls.{empty_hall};
    ghost use Rattle.desk.specs.Traces.{no_table};
    ghost use Rattle.site_desk.specs.Stocks.{no_plan};

    ghost table = { λ _. no_table };

    ghost begun = { λ _. empty_hall 0 (record { segments = 0; nodes = 0 }) };

    ghost granted = { λ _. no_table };

    ghost plan = { λ _. no_plan };
}
