//! For tests at a site's desk. Each test has a desk of its own, whose history is named by the call that makes it.
ghost use Rattle.site_desk.specs.Stocks.{AreStocked};

use super::sites::only;
use super::{bells, charges, holds, neighbours, sites};
use site_desk::{SiteDesk, SiteNaming, SiteStock, desks_of};
use std::alloc::Global;
use std::marker::Brand;
use std::process::Abort;
use std::sync::Wait;
use std::thread::Threads;
use std::time::{Clock, CpuClock};

/// What is tried.
#[derive(Clone, Copy)]
pub(super) enum Trial {
    GuestsSession,
    Tokens,
    PaidLines,
    OneGoes,
    NobodyGoes,
    AllAreWoken,
    OthersEnd,
    ToldTheirOwn,
    OneRaises,
    SixtySixCome,
    TwelveGiveBack,
    PlanComes,
    OneIsTold,
    Strangers,
    TwoLeave,
    BothAreServed,
}

/// Does this trial at a new site's desk, made of this stock (a hall, a book and its plan).
pub(super) fn try_out<R>(rt: &R, stock: SiteStock, trial: Trial)
where
    R: Wait + Abort + Threads + Clock + CpuClock + AllocGlobal + Sync,
{
    try_all(rt, only(rt, rt.alloc(), stock), trial);
}

/// Does this trial at the first of several new desks of a site, made of these stocks.
pub(super) fn try_all<R>(rt: &R, stocks: Vec<SiteStock>, trial: Trial)
where
    R: Wait + Abort + Threads + Clock + CpuClock + AllocGlobal + Sync,
{
    try_at::<Brand, R>(rt, stocks, trial);
}

/// Tries something at the first of the desks that are made of these, where the desks' histories have a name.
fn try_at<J: SiteNaming + Send + Sync, R>(rt: &R, stocks: Vec<SiteStock>, trial: Trial)
where
    R: Wait + Abort + Threads + Clock + CpuClock + AllocGlobal + Sync,
    requires { AreStocked (record { table = J.table; begun = J.begun; granted = J.granted; plan = J.plan }) 0 stocks.items }
{
    let desks = desks_of::<J, Global>(rt.alloc(), stocks).expect(rt, "there is memory");
    holds(rt, !desks.is_empty());
    is_tried(rt, desks.as_slice(), &desks[0], trial);
}

/// Does this trial at a site's desk, the first of these desks.
fn is_tried<J: SiteNaming + Send + Sync, R>(
    rt: &R,
    desks: &[SiteDesk<J>],
    desk: &SiteDesk<J>,
    trial: Trial,
)
where
    R: Wait + Abort + Threads + Clock + CpuClock + AllocGlobal + Sync,
{
    match trial {
        Trial::GuestsSession => sites::a_guest_plays(rt, desks, desk),
        Trial::Tokens => sites::tokens_are_said(rt, desks, desk),
        Trial::PaidLines => sites::lines_are_paid(rt, desks, desk),
        Trial::OneGoes => sites::one_goes(rt, desks, desk),
        Trial::NobodyGoes => sites::nobody_goes(rt, desks, desk),
        Trial::AllAreWoken => bells::all_are_woken(rt, desk),
        Trial::OthersEnd => bells::others_end(rt, desk),
        Trial::ToldTheirOwn => neighbours::told_of_their_own(rt, desk),
        Trial::OneRaises => neighbours::one_raises(rt, desk),
        Trial::SixtySixCome => neighbours::sixty_six_come(rt, desk),
        Trial::TwelveGiveBack => neighbours::twelve_give_back(rt, desk),
        Trial::PlanComes => neighbours::a_plan_comes(rt, desk),
        Trial::OneIsTold => neighbours::one_is_told(rt, desk),
        Trial::Strangers => neighbours::strangers_are_refused(rt, desks),
        Trial::TwoLeave => neighbours::two_leave(rt, desks),
        Trial::BothAreServed => charges::both_are_served(rt, desk),
    }
}
