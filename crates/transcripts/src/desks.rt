//! The player of texts: scenes of sessions.
//!
//! The head is `desk segments S nodes N`, with `grain G` (0 where it isn't named), `worker W` (1) and `pieces P`, the most bytes that
//! a session's reader gives at once (4,096). Where it has `refuses K`, the K-th request for memory after the desk was made is refused.
ghost use Rattle.std.specs.Prelude.{◌≡◌, ◌≤◌};

use crate::agreement::{Agreement, Done};
use crate::desk_worker::DeskWorker;
use crate::played_desk::PlayedDesk;
use crate::playing::read_totals;
use crate::scenes::Scene;
use crate::words::option;
use desk::{Config, Desk, DeskLedger, Hall, Jamboree, Opened, PARTS, Step, Worker};
use std::alloc::{Allocator, Global};
use std::marker::Brand;
use std::sync::Wait;
use std::sync::ledger::Blank;
use toys::CountedAlloc;

/// What a head asks for.
#[derive(Clone, Copy)]
struct DeskHead {
    config: Config,
    grain: u8,
    worker: Worker,
    pieces: usize,
    refuses: u64,
    ghost fine: { grain ≤ 6 },
}

/// The worker that a head names, or the first; None where there is none of that number.
fn read_worker(head: &str) -> Option<Worker> {
    Worker::new(u8::try_from(option(head, "worker").unwrap_or(1)).ok()?)
}

/// What a head asks for; None where a number is missing or not within its limits.
fn read_setting(head: &str) -> Option<DeskHead> {
    let config = read_totals(head)?;
    let worker = read_worker(head)?;
    let grain = option(head, "grain").unwrap_or(0);
    if grain > 6 {
        return None;
    }
    Some(DeskHead {
        config,
        grain: grain as u8,
        worker,
        pieces: option(head, "pieces").unwrap_or(4096) as usize,
        refuses: option(head, "refuses").unwrap_or(0),
    })
}

/// Plays a scene at a desk of its own.
pub fn play_sessions<R: Wait>(
    rt: &R,
    alloc: Global,
    scene: &Scene<'_>,
    agreement: &mut Agreement,
) -> Done {
    let head = scene.head;
    let Some(setting) = read_setting(head.text) else {
        return agreement.miss(head, "segments, nodes, and a grain from 0 to 6", head.text);
    };
    let counted = CountedAlloc::new(alloc);
    let hall = Hall::new(&counted, setting.config, setting.grain)?;
    counted.refuse(setting.refuses);
    let blank = Blank::new(PARTS);
    let opened = Opened::new(alloc)?;
    play_at::<Brand, R, &CountedAlloc<Global>>(
        rt, alloc, hall, blank, opened, setting, scene, agreement,
    )
}

/// Plays a scene at a desk with this hall.
fn play_at<L: DeskLedger, R: Wait, A: Allocator + Clone>(
    rt: &R,
    alloc: Global,
    hall: Hall<A>,
    blank: Blank,
    opened: Opened<Step<Jamboree>>,
    setting: DeskHead,
    scene: &Scene<'_>,
    agreement: &mut Agreement,
) -> Done
    requires name { blank.name ≡ L.name }
    requires parts { (blank.parts ≡ L.parts) × (L.all ≡ L.parts) × (L.all ≡ PARTS) }
    requires history { opened ≡ L.table }
    requires begun { hall ≡ L.begun }
{
    let desk: Desk<L, A> = Desk::new(hall, blank, opened);
    play_rows(rt, alloc, &desk, setting, scene, agreement)
}

/// Plays the rows of a scene at this desk.
fn play_rows<L: DeskLedger, R: Wait, A: Allocator + Clone>(
    rt: &R,
    alloc: Global,
    desk: &Desk<L, A>,
    setting: DeskHead,
    scene: &Scene<'_>,
    agreement: &mut Agreement,
) -> Done
    requires { L.all ≡ L.parts }
{
    let Some(worker) = DeskWorker::new(alloc, rt, desk, setting.worker) else {
        return agreement.miss(scene.head, "a badge", "none");
    };
    let mut played = PlayedDesk::new(rt, alloc, desk, worker, setting.pieces);
    played.play(scene.rows.as_slice(), agreement)
}
