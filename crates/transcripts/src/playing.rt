//! The player of texts of a core's steps.
//!
//! A text of steps has the steps that a core takes, its answers, and looks at its state in between. A scene of it is played on a new core,
//! by the procedure and of the totals that its head names. Its rows are steps with their answers, `Advance 2 1.3 -> Spawned 1.5`, and looks
//! with what is seen, `left 1 = 7 3 119`. Each step is asked for by `refusal` before it is taken by `step`, and both must say the same; no
//! step but an admission and a Leave may call the allocator. A head may name a request for memory
//! that is refused. At the end the whole list is
//! played again by one `run` on a new core, and the steps of each tenant that were taken once more on a core of its own:
//! each is answered as before, and each tenant reads the same (the headline, tried).
//!
//! The procedures are those of `toys`, `Jamboree`, and one more for lists that are drawn from a seed, [`Reader`].
//!
//! ```text
//! = core Reader segments 4 nodes 4
//! Admit 1 4 4 -> Admitted
//! Submit 1 4 0o43 0o5 -> Submitted 1 1.1
//! Steal 1 0 1.1 -> Took
//! Advance 1 1.1 -> Spawned 1.2
//! frame 1.2 = under 1.1 Ready(1): 5 0 0 0
//! ```
use crate::agreement::{Agreement, Done};
use crate::answered::draw_answer;
use crate::looks::draw_tenant;
use crate::plain_core::{Counting, made, run};
use crate::reader::Reader;
use crate::scenes::{Row, Scene};
use crate::stage::{Played, play_row, tell};
use crate::values::{DrawnInput, FromWords};
use crate::words::{LineWords, option, small_option};
use jamboree::Jamboree;
use sched_core::{Config, Procedure};
use std::alloc::{AllocError, Global};
use toys::{Chain, CountedAlloc, Fan, Spin};

/// The totals that a head asks for; None where a number is missing or not within its limits.
pub fn read_totals(head: &str) -> Option<Config> {
    let segments = small_option(head, "segments")?;
    let nodes = small_option(head, "nodes")?;
    Config::new(segments, nodes)
}

/// Jamboree of the grain that a head asks for, 0 where it names none; None where that is above 6.
fn read_jamboree(head: &str) -> Option<Jamboree> {
    Jamboree::new(u8::try_from(option(head, "grain").unwrap_or(0)).ok()?)
}

/// Plays a scene. Its head is `core PROCEDURE segments S nodes N`, with `grain G` for Jamboree (0 where it isn't named). Where it
/// has `refuses K`, the K-th request for memory after the core was made is refused.
pub fn play_steps(alloc: Global, scene: &Scene<'_>, agreement: &mut Agreement) -> Done {
    let head = scene.head;
    let mut words = LineWords::of(head.text);
    let _core = words.word();
    let Some(config) = read_totals(head.text) else {
        return agreement.miss(head, "segments and nodes", head.text);
    };
    match words.word() {
        Some("Fan") => play_on(alloc, Fan::new(), config, scene, agreement),
        Some("Chain") => play_on(alloc, Chain::new(), config, scene, agreement),
        Some("Spin") => play_on(alloc, Spin::new(), config, scene, agreement),
        Some("Reader") => play_on(alloc, Reader::new(), config, scene, agreement),
        Some("Jamboree") => match read_jamboree(head.text) {
            Some(procedure) => play_on(alloc, procedure, config, scene, agreement),
            None => agreement.miss(head, "a grain from 0 to 6", "another"),
        },
        _ => agreement.miss(head, "a procedure", head.text),
    }
}

/// What a scene is played by, and its head.
#[derive(Drop)]
struct CoreScene<'t, P: Drop> {
    alloc: Global,
    procedure: P,
    config: Config,
    head: Row<'t>,
}

/// Plays a scene on a new core, and then its steps again: by `run` on a new core, and those of each tenant on a core of its own.
fn play_on<P: Procedure<Answer: FromWords, Input: DrawnInput> + Copy>(
    alloc: Global,
    procedure: P,
    config: Config,
    scene: &Scene<'_>,
    agreement: &mut Agreement,
) -> Done {
    let counted = CountedAlloc::new(alloc);
    let mut core = made(&counted, config, procedure)?;
    counted.refuse(option(scene.head.text, "refuses").unwrap_or(0));
    let mut played = Played::new(alloc);
    for row in scene.rows.iter() {
        play_row(alloc, &counted, &mut core, &mut played, *row, agreement)?;
    }
    let setting = CoreScene {
        alloc,
        procedure,
        config,
        head: scene.head,
    };
    play_together(&setting, &core, &played, agreement)?;
    for tenant in tenants(alloc, &played)?.iter() {
        play_alone(&setting, &core, &played, *tenant, agreement)?;
    }
    Ok(())
}

/// Plays the steps by `run` on a new core, and compares the answers and all that is read.
fn play_together<P: Procedure<Answer: FromWords, Input: DrawnInput> + Copy>(
    setting: &CoreScene<'_, P>,
    core: &Counting<'_, P>,
    played: &Played<'_, P::Answer>,
    agreement: &mut Agreement,
) -> Done {
    let counted = CountedAlloc::new(setting.alloc);
    let mut again = made(&counted, setting.config, setting.procedure)?;
    run_again(setting, &counted, &mut again, played, agreement)?;
    for tenant in tenants(setting.alloc, played)?.iter() {
        compare_tenant(setting, core, &again, played, *tenant, agreement)?;
    }
    if core.free_segments() == again.free_segments() {
        return Ok(());
    }
    agreement.miss(
        setting.head,
        "as many free segments by run",
        "another count",
    )
}

/// Plays the steps by `run`, and compares the answers.
fn run_again<'c, P: Procedure<Answer: FromWords, Input: DrawnInput> + Copy>(
    setting: &CoreScene<'_, P>,
    counted: &'c CountedAlloc<Global>,
    core: &mut Counting<'c, P>,
    played: &Played<'_, P::Answer>,
    agreement: &mut Agreement,
) -> Done {
    let mut answers = Vec::new(counted);
    if run(core, played.steps.as_slice(), &mut answers).is_err() {
        return agreement.miss(setting.head, "answers by run", "none for want of memory");
    }
    for ((answer, told), row) in answers
        .iter()
        .zip(played.told.iter())
        .zip(played.rows.iter())
    {
        let mut text = String::new(setting.alloc);
        draw_answer(&mut text, answer)?;
        agree(*row, "by run", told.as_str(), text.as_str(), agreement)?;
    }
    Ok(())
}

/// A row that is counted only where it disagrees.
fn agree(row: Row<'_>, how: &str, due: &str, came: &str, agreement: &mut Agreement) -> Done {
    if due == came {
        return Ok(());
    }
    agreement.miss(row, how, came)
}

/// The tenants of the steps, each once.
fn tenants<A: Drop>(alloc: Global, played: &Played<'_, A>) -> Result<Vec<u64>, AllocError> {
    let mut tenants = Vec::new(alloc);
    for step in played.steps.iter() {
        let tenant = step.tenant();
        if !tenants.as_slice().contains(&tenant) {
            tenants.push(tenant)?;
        }
    }
    Ok(tenants)
}

/// How many of the steps are this tenant's.
fn steps_of<A: Drop>(played: &Played<'_, A>, tenant: u64) -> u64 {
    let mut count = 0u64;
    for step in played.steps.iter() {
        if step.tenant() == tenant {
            count = count.saturating_add(1);
        }
    }
    count
}

/// Compares all that is read of a tenant in two cores.
fn compare_tenant<P: Procedure<Answer: FromWords> + Drop>(
    setting: &CoreScene<'_, P>,
    one: &Counting<'_, P>,
    other: &Counting<'_, P>,
    played: &Played<'_, P::Answer>,
    tenant: u64,
    agreement: &mut Agreement,
) -> Done {
    let last = steps_of(played, tenant).saturating_add(1);
    let mut due = String::new(setting.alloc);
    let mut came = String::new(setting.alloc);
    draw_tenant(&mut due, one, tenant, last)?;
    draw_tenant(&mut came, other, tenant, last)?;
    let head = setting.head;
    agree(head, due.as_str(), due.as_str(), came.as_str(), agreement)
}

/// Plays the steps of a tenant that were taken on a core of its own, and compares answers and tenant.
fn play_alone<P: Procedure<Answer: FromWords, Input: DrawnInput> + Copy>(
    setting: &CoreScene<'_, P>,
    together: &Counting<'_, P>,
    played: &Played<'_, P::Answer>,
    tenant: u64,
    agreement: &mut Agreement,
) -> Done {
    let counted = CountedAlloc::new(setting.alloc);
    let mut core = made(&counted, setting.config, setting.procedure)?;
    for ((step, told), row) in played
        .steps
        .iter()
        .zip(played.told.iter())
        .zip(played.rows.iter())
    {
        if step.tenant() == tenant && !told.as_str().starts_with("Err ") {
            let answer = tell(setting.alloc, &counted, &mut core, step)?;
            agree(*row, "alone", told.as_str(), answer.as_str(), agreement)?;
        }
    }
    compare_tenant(setting, together, &core, played, tenant, agreement)
}
