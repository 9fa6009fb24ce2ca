//! What the tests of storage, cores and halls use: totals, reservations, roots.
use sched_core::Config;
use std::process::Abort;
use tenant_quota::Reserve;

mod cores;
mod frames;
mod growths;
mod halls;
mod nodes;
mod plain_core;
mod sizes;
mod storage;

/// The totals of a core: so many segments and nodes.
fn config_of(rt: &impl Abort, segments: u32, nodes: u32) -> Config {
    Config::new(segments, nodes).expect(rt, "within the limits")
}

/// A tenant's reservation of so many segments and nodes.
fn reserve_of(rt: &impl Abort, segments: u32, nodes: u32) -> Reserve {
    Reserve::new(segments, nodes).expect(rt, "within the limits")
}
