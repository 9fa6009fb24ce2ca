//! What a site's desks are made of.
ghost use Rattle.std.specs.Prelude.{◌≡◌, ◌≤◌, []};
ghost use Rattle.fair_share.specs.Lines.{empty_line};
ghost use Rattle.site_desk.specs.Stocks.{AreStocked};

use crate::naming::SiteNaming;
use crate::site_desk::SiteDesk;
use desk::Opened;
use fair_share::FairShare;
use hall::{Hall, Jamboree, Step};
use site_book::{BookEvent, CustomerBook};
use std::alloc::{AllocError, Allocator, Global};
use std::marker::Model;

/// What a site's desk is made of: a hall and a book that are both empty, where the hall has what the book's plan says of it; what customers
/// were served before; and a new history of each.
#[derive(Drop)]
pub struct SiteStock<A: Allocator = Global> {
    pub(crate) hall: Hall<A>,
    pub(crate) book: CustomerBook,
    pub(crate) shares: FairShare,
    pub(crate) opened: Opened<Step<Jamboree>>,
    pub(crate) granted: Opened<BookEvent>,
}

// Clauses see all of it.
impl<A: Allocator> Model for SiteStock<A> {
    ghost use Rattle.std.specs.Prelude.{◌≡◌, []};
    ghost use Rattle.fair_share.specs.Lines.{empty_line};
    ghost use Rattle.site_desk.specs.Booked.{IsBooked};
    ghost use Rattle.site_desk.specs.Stocks.{StockOf};

    ghost Value = { StockOf };

    ghost view = { λ s. record { hall = s.hall; book = s.book; shares = s.shares; opened = s.opened; granted = s.granted } };

    ghost invariant = { λ s. IsBooked s.hall s.book × (s.hall.shared.tenants ≡ []) × (s.book.grants ≡ []) × (s.shares.tenants ≡ empty_line) };
}

impl<A: Allocator> SiteStock<A> {
    /// A hall with its book and a history of each ([`Opened::new`]), where nobody is.
    pub fn new(
        hall: Hall<A>,
        book: CustomerBook,
        shares: FairShare,
        opened: Opened<Step<Jamboree>>,
        granted: Opened<BookEvent>,
    ) -> SiteStock<A>
        requires nobody { hall.shared.tenants ≡ [] }
        requires nothing { book.grants ≡ [] }
        requires segments { book.plan.totals.segments ≤ hall.shared.totals.segments }
        requires nodes { book.plan.totals.nodes ≤ hall.shared.totals.nodes }
        requires none_shares { shares.tenants ≡ empty_line }
        ensures { result ≡ record { hall = hall; book = book; shares = shares; opened = opened; granted = granted } }
    {
        SiteStock {
            hall,
            book,
            shares,
            opened,
            granted,
        }
    }
}

/// The desks of a site, one of each of these, in their order; the number of each is its place.
pub fn desks_of<J: SiteNaming, A: Allocator + Clone>(
    alloc: Global,
    stocks: Vec<SiteStock<A>>,
) -> Result<Vec<SiteDesk<J, A>>, AllocError>
    requires { AreStocked (record { table = J.table; begun = J.begun; granted = J.granted; plan = J.plan }) 0 stocks.items }
{
    let mut rest = stocks;
    let mut desks = Vec::new(alloc);
    while let Some(stock) = rest.pop() {
        desks.push(SiteDesk::new(rest.len() as u64, stock))?;
    }
    desks.reverse();
    Ok(desks)
}
