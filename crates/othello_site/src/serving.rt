//! The threads of a site that serves.
//!
//! They run in a scope of a thread of its own, which doesn't end before the program. The thread that began it waits for one thing alone:
//! that it is told why the site ends ([`Ending`]). Then the program ends at once, and its sessions with it, so that whoever supervises it can
//! start it again.
ghost use Rattle.std.specs.Prelude.{◌≡◌, IfSome};
ghost use Rattle.site_desk.specs.Stocks.{AreStocked};

use crate::clock::SiteClock;
use crate::control::{answer_control, serve_control};
use crate::ending::{Ending, Unheard, Why};
use crate::host::Host;
use crate::listening::take_all;
use crate::logging::Log;
use crate::paths::Paths;
use crate::register::Register;
use crate::shared::Shared;
use crate::visits::{HOSTS, Visits};
use crate::watching::watch_all;
use crate::web::{answer_web, serve_web};
use fair_share::FairShare;
use hall::{Config as Totals, Hall};
use sched_rules::Worker;
use site_book::{CustomerBook, Plan};
use site_desk::{SiteDesk, SiteNaming, SiteStock, desks_of};
use site_file::SiteConfig;
use site_rules::{Port, plan_of_both};
use std::alloc::{AllocError, Global};
use std::io;
use std::marker::Brand;
use std::net::{Net, SocketAddr, TcpListener, TcpStream};
use std::os::unix::net::UnixListener;
use std::sync::{Arc, Mutex, Wait};
use std::thread::{self, Builder, Scope, Threads};
use std::time::Clock;
use steal_pool::desk::Opened;
use steal_pool::{OpenGate, Order, PoolConfig, Quiet, run_pool_announced};

/// Where a site listens.
#[derive(Drop)]
struct Listeners {
    plain: Option<TcpListener>,
    proxied: Option<TcpListener>,
    health: Option<TcpListener>,
    control: Option<UnixListener>,
}

/// What a site serves with.
#[derive(Drop)]
struct SiteService<J: SiteNaming> {
    shared: Shared<J>,
    listeners: Listeners,
    workers: u8,
}

/// The listener at an address, if there is one; the file calls it by this name.
fn listener_at<R>(
    rt: &R,
    name: &'static str,
    address: Option<SocketAddr>,
) -> Result<Option<TcpListener>, Unheard>
where
    R: Net<Listener = TcpListener, Stream = TcpStream>,
{
    let Some(place) = address else {
        return Ok(None);
    };
    match TcpListener::bind(rt, place) {
        Ok(listener) => Ok(Some(listener)),
        Err(error) => Err(Unheard {
            name,
            address,
            error,
        }),
    }
}

/// The operator's socket, if there is one.
fn control_at<R: Paths>(rt: &R, config: &SiteConfig) -> Result<Option<UnixListener>, Unheard> {
    let Some(path) = &config.control else {
        return Ok(None);
    };
    match rt.socket_at(path.as_str()) {
        Ok(listener) => Ok(Some(listener)),
        Err(error) => Err(Unheard {
            name: "control",
            address: None,
            error,
        }),
    }
}

/// Opens the listeners that a site's file names.
fn listeners_of<R>(rt: &R, config: &SiteConfig) -> Result<Listeners, Unheard>
where
    R: Net<Listener = TcpListener, Stream = TcpStream> + Paths,
{
    let proxied = listener_at(rt, "listen", config.entrances.proxied)?;
    let plain = listener_at(rt, "plain", config.entrances.plain)?;
    let health = listener_at(rt, "health", config.entrances.health)?;
    let control = control_at(rt, config)?;
    Ok(Listeners {
        plain,
        proxied,
        health,
        control,
    })
}

/// The totals of a hall by its plan; `None` where they are beyond any hall's.
fn totals_of(plan: &Plan) -> Option<Totals>
    ensures segments { IfSome result (λ totals. totals.segments ≡ plan.now.totals.segments) }
    ensures nodes { IfSome result (λ totals. totals.nodes ≡ plan.now.totals.nodes) }
{
    let totals = plan.totals();
    let Ok(segments) = u32::try_from(totals.segments) else {
        return None;
    };
    match u32::try_from(totals.nodes) {
        Ok(nodes) => Totals::new(segments, nodes),
        Err(_) => None,
    }
}

/// How many customers may be new in files that are read later, whose shares outlive their sessions.
const LATER: usize = 4_096;

/// What the desk of a hall with this plan of so many named customers is made of; `None` where there is no such hall.
fn stock_of(
    alloc: Global,
    plan: Plan,
    customers: usize,
    grain: u8,
) -> Result<Option<SiteStock>, AllocError> {
    let Some(totals) = totals_of(&plan) else {
        return Ok(None);
    };
    let hall = Hall::new(alloc, totals, grain.min(6))?;
    let book = CustomerBook::new(alloc, plan)?;
    let shares = FairShare::new(alloc, customers.saturating_add(LATER))?;
    let opened = Opened::new(alloc)?;
    let granted = Opened::new(alloc)?;
    Ok(Some(SiteStock::new(hall, book, shares, opened, granted)))
}

/// What the desks of a site are made of, one for each plan; `None` where one's totals are beyond any hall's.
fn stocks_of(alloc: Global, config: &SiteConfig) -> Result<Option<Vec<SiteStock>>, AllocError> {
    let mut stocks = Vec::new(alloc);
    let customers = config.directory.customers.len();
    let many = u32::try_from(customers).unwrap_or(u32::MAX);
    for plan in &config.halls {
        let Some(plan) = plan_of_both(alloc, plan, plan, many)? else {
            return Ok(None);
        };
        match stock_of(alloc, plan, customers, config.workers.grain)? {
            Some(stock) => stocks.push(stock)?,
            None => return Ok(None),
        }
    }
    Ok(Some(stocks))
}

/// How many workers each hall of the site has.
fn workers_of<R: Threads>(rt: &R, config: &SiteConfig) -> u8 {
    match config.workers.count {
        Some(count) => count,
        None => match thread::available_parallelism(rt) {
            Ok(count) => u8::try_from(count.get().min(32)).unwrap_or(1),
            Err(_) => 1,
        },
    }
}

/// What the threads share, where nobody is there.
fn shared_of<J: SiteNaming, R: Clock + Paths + AllocGlobal>(
    rt: &R,
    path: String,
    config: SiteConfig,
    desks: Vec<SiteDesk<J>>,
    ending: Arc<Ending, Global>,
) -> io::Result<Shared<J>> {
    let alloc = rt.alloc();
    let clock = SiteClock::begin(rt)?;
    let grain = config.workers.grain;
    let config = Arc::new(alloc, config)?;
    Ok(Shared {
        desks,
        grain,
        lock: Mutex::new(Register::new(alloc, config)),
        log: Log::new(alloc),
        clock,
        path,
        reloads: Mutex::new(()),
        descriptors: rt.descriptors(),
        web: Visits::new(alloc),
        operators: Visits::new(alloc),
        ending,
    })
}

/// Listens as a file says, and serves until it is told why the site ends; `None` where a hall's totals are beyond any hall's.
pub(crate) fn serve_config<R: Host>(
    rt: &R,
    path: &str,
    config: SiteConfig,
) -> io::Result<Option<Why>> {
    let listeners = match listeners_of(rt, &config) {
        Ok(listeners) => listeners,
        Err(fault) => return Ok(Some(Why::Unheard(fault))),
    };
    let path = String::from_str(rt.alloc(), path)?;
    match stocks_of(rt.alloc(), &config)? {
        Some(stocks) => serve_halls::<Brand, R>(rt, path, config, listeners, stocks),
        None => Ok(None),
    }
}

/// Serves at desks that are made of these until it is told why the site ends.
fn serve_halls<J, R>(
    rt: &R,
    path: String,
    config: SiteConfig,
    listeners: Listeners,
    stocks: Vec<SiteStock>,
) -> io::Result<Option<Why>>
where
    J: SiteNaming + Send + Sync + 'static,
    R: Host,
    requires { AreStocked (record { table = J.table; begun = J.begun; granted = J.granted; plan = J.plan }) 0 stocks.items }
{
    let workers = workers_of(rt, &config);
    let (ending, theirs) = endings(rt.alloc())?;
    let desks = desks_of::<J, Global>(rt.alloc(), stocks)?;
    let site = SiteService {
        shared: shared_of(rt, path, config, desks, theirs)?,
        listeners,
        workers,
    };
    let host = *rt;
    let _ = Builder::new().spawn(rt, move || serve_site(&host, site))?;
    Ok(Some(ending.wait(rt)))
}

/// What is told why the site ends, and what waits for it.
fn endings(alloc: Global) -> Result<(Arc<Ending, Global>, Arc<Ending, Global>), AllocError> {
    let ending = Arc::new(alloc, Ending::new())?;
    let theirs = Arc::try_clone(&ending)?;
    Ok((ending, theirs))
}

/// Says on the output at which address the site listens.
fn say_listening<R: Print>(rt: &R, listener: &Option<TcpListener>) {
    if let Some(listener) = listener {
        if let Ok(address) = listener.local_addr() {
            let _ = println!(rt; "listening {address}");
        }
    }
}

/// Runs the workers of a hall, until its desk is closed.
fn run_workers<J: SiteNaming + Send + Sync, R: Threads + Wait + Sync>(
    rt: &R,
    alloc: Global,
    shared: &Shared<J>,
    hall: usize,
    workers: u8,
) {
    let Some(last) = Worker::new(workers) else {
        shared.ending.tell(rt, Why::Idle);
        return;
    };
    let config = PoolConfig {
        order: Order::WithPicks,
        ..PoolConfig::new(last)
    };
    if let Some(desk) = shared.desks.get(hall) {
        let (_quiet, ended) = run_pool_announced(rt, alloc, desk, config, &OpenGate, Quiet);
        if ended.is_err() {
            shared.ending.tell(rt, Why::Idle);
        }
    }
}

/// Starts the workers of a hall, in a thread of their own.
fn start_hall<'s, J: SiteNaming + Send + Sync, E, R: Threads + Wait + Sync>(
    scope: &'s Scope<'s, E>,
    rt: &'s R,
    alloc: Global,
    shared: &'s Shared<J>,
    hall: usize,
    workers: u8,
) {
    let _ = scope.spawn(move || run_workers(rt, alloc, shared, hall, workers));
}

/// Starts the pools of workers of all halls.
fn start_workers<'s, J: SiteNaming + Send + Sync, E, R: Threads + Wait + Sync>(
    scope: &'s Scope<'s, E>,
    rt: &'s R,
    alloc: Global,
    shared: &'s Shared<J>,
    workers: u8,
) {
    for hall in 0..shared.desks.len() {
        start_hall(scope, rt, alloc, shared, hall, workers);
    }
}

/// Starts taking connections at a port, if the site listens there.
fn start_port<'s, J: SiteNaming + Send + Sync, E, R>(
    scope: &'s Scope<'s, E>,
    rt: &'s R,
    alloc: Global,
    shared: &'s Shared<J>,
    listener: Option<TcpListener>,
    port: Port,
)
where
    R: Net<Listener = TcpListener, Stream = TcpStream> + Threads + Wait + Clock + Sync,
{
    if let Some(listener) = listener {
        let _ = scope.spawn(move || take_all(scope, rt, alloc, shared, listener, port));
    }
}

/// Starts the threads that answer the operator.
fn start_control<
    's,
    J: SiteNaming + Send + Sync,
    E,
    R: Threads + Wait + Clock + Paths + AllocGlobal + Sync,
>(scope: &'s Scope<'s, E>, rt: &'s R, shared: &'s Shared<J>, listener: UnixListener) {
    for _ in 0..HOSTS {
        let _ = scope.spawn(move || answer_control(rt, shared));
    }
    let _ = scope.spawn(move || serve_control(rt, shared, listener));
}

/// Starts what says health and metrics.
fn start_web<'s, J: SiteNaming + Send + Sync, E, R: Threads + Wait + Clock + AllocGlobal + Sync>(
    scope: &'s Scope<'s, E>,
    rt: &'s R,
    shared: &'s Shared<J>,
    listener: TcpListener,
) {
    for _ in 0..HOSTS {
        let _ = scope.spawn(move || answer_web(rt, shared));
    }
    let _ = scope.spawn(move || serve_web(rt, shared, listener));
}

/// Starts all threads of a site, and waits until it ends.
fn serve_site<J: SiteNaming + Send + Sync, R: Host>(rt: &R, site: SiteService<J>) {
    let SiteService {
        shared,
        listeners,
        workers,
    } = site;
    serve_threads(rt, &shared, listeners, workers);
}

/// Starts all threads of a site, and waits for them.
fn serve_threads<J: SiteNaming + Send + Sync, R: Host>(
    rt: &R,
    shared: &Shared<J>,
    listeners: Listeners,
    workers: u8,
) {
    let Listeners {
        plain,
        proxied,
        health,
        control,
    } = listeners;
    say_listening(rt, &plain);
    say_listening(rt, &proxied);
    thread::scope(thread::scope_env(), rt, |scope| {
        start_workers(scope, rt, rt.alloc(), shared, workers);
        let _ = scope.spawn(move || shared.log.write_all(rt, rt.alloc()));
        let _ = scope.spawn(move || watch_all(rt, shared));
        if let Some(control) = control {
            start_control(scope, rt, shared, control);
        }
        if let Some(health) = health {
            start_web(scope, rt, shared, health);
        }
        start_port(scope, rt, rt.alloc(), shared, plain, Port::Plain);
        start_port(scope, rt, rt.alloc(), shared, proxied, Port::Proxied);
    });
}
