//! What the program `othello_site` does with the words of its command line.
use crate::ending::{Unheard, Why};
use crate::host::Host;
use crate::paths::Paths;
use crate::reloading::lower;
use crate::serving::serve_config;
use site_book::{Group, Plan, Who};
use site_file::{SiteConfig, amount_text, read_config};
use site_rules::KEPT_DESCRIPTORS;
use std::alloc::{AllocError, Global};
use std::fmt::{Display, Write};
use std::io;
use std::net::{Net, TcpListener, TcpStream};
use std::sync::Wait;
use std::thread::Threads;
use std::time::Clock;

const EXIT_OK: u8 = 0;

const EXIT_FAILED: u8 = 1;

const EXIT_REFUSED: u8 = 2;

/// The port where there is no file.
const PORT: u16 = 4711;

/// What `--help` says.
const HELP: &str = "Serves the sessions of a site, each customer within its budget.

Usage: othello_site                 serves at 127.0.0.1:4711, everybody a guest who may take what is free
       othello_site FILE            serves, by a file as deploy/site.toml
       othello_site --check FILE    says what the file gives away, and whether it fits the halls
       othello_site --say SOCKET LINE   says a line to the site whose operator's socket this is, and prints what it answers
       othello_site --version
       othello_site --help

Status: 1 where it can't listen or work, or no more connections can be taken; 2 where the words or the file are wrong.
";

/// The words of the command line, the program's name first.
pub(crate) fn words_of(alloc: Global, words: io::Result<std::env::Args>) -> Option<Vec<String>> {
    let Ok(words) = words else {
        return None;
    };
    let mut all = Vec::new(alloc);
    for word in words {
        if all.push(word).is_err() {
            return None;
        }
    }
    Some(all)
}

/// Says on the errors how the program is used, as its words can't be followed, and returns the exit status.
pub(crate) fn refuse_words(rt: &impl Eprint) -> u8 {
    let _ = eprint!(rt; "{HELP}");
    EXIT_REFUSED
}

/// What words ask for.
#[derive(Clone, Copy)]
enum Asked<'w> {
    Help,
    Version,
    /// What the file of this path gives away.
    Check(&'w str),
    /// What the site answers at the socket of this path to this line.
    Say(&'w str, &'w str),
    /// That the site serve by the file of this path.
    Serve(&'w str),
    /// That it serve without a file.
    Alone,
    /// Nothing that the program does.
    Nothing,
}

/// What the words of the command line ask for.
fn asked_by(words: &[String]) -> Asked<'_> {
    match words {
        [_] => Asked::Alone,
        [_, word] => asked_by_one(word.as_str()),
        [_, word, path] if word.as_str() == "--check" => Asked::Check(path.as_str()),
        [_, word, path, line] if word.as_str() == "--say" => {
            Asked::Say(path.as_str(), line.as_str())
        }
        _ => Asked::Nothing,
    }
}

/// What a command line of one word asks for: help, the version, a site by the file of this name, or nothing that is
/// known.
fn asked_by_one(word: &str) -> Asked<'_> {
    match word {
        "--help" | "-h" => Asked::Help,
        "--version" | "-V" => Asked::Version,
        path if path.starts_with("-") => Asked::Nothing,
        path => Asked::Serve(path),
    }
}

/// Does what the words ask for, and returns the exit status. (What it needs is spelled out, as `main` can't be proved to call a
/// function with the bound `Host`.)
pub(crate) fn run<R>(rt: &R, words: &[String]) -> u8
where
    R: Net<Listener = TcpListener, Stream = TcpStream>
        + Threads
        + Wait
        + Clock
        + Paths
        + Print
        + Eprint
        + AllocGlobal
        + Copy
        + Send
        + Sync
        + 'static,
{
    match asked_by(words) {
        Asked::Help => say(rt, HELP),
        Asked::Version => say(rt, "othello_site 1.0.0\n"),
        Asked::Check(path) => check(rt, path),
        Asked::Say(path, line) => say_to_site(rt, path, line),
        Asked::Serve(path) => match config_at(rt, path) {
            Ok(config) => serve(rt, path, config),
            Err(status) => status,
        },
        Asked::Alone => alone(rt),
        Asked::Nothing => refuse_words(rt),
    }
}

/// Writes a text on the output, and returns the exit status.
fn say<R: Print>(rt: &R, text: &str) -> u8 {
    match print!(rt; "{text}") {
        Ok(()) => EXIT_OK,
        Err(_) => EXIT_FAILED,
    }
}

/// Says a line to a site, and writes what it answers; the status says whether it refuses it.
fn say_to_site<R: Paths + Print + Eprint>(rt: &R, path: &str, line: &str) -> u8 {
    match rt.answer_of(path, line) {
        Ok(text) => {
            let status = say(rt, text.as_str());
            if text.as_str().starts_with("ERR") {
                EXIT_FAILED
            } else {
                status
            }
        }
        Err(error) => {
            let _ = eprintln!(rt; "othello_site: {path}: {error}");
            EXIT_FAILED
        }
    }
}

/// What a file says; Err with the status where it can't be read or is wrong.
fn config_at<R: Paths + Eprint + AllocGlobal>(rt: &R, path: &str) -> Result<SiteConfig, u8> {
    let text = match rt.text_of(path) {
        Ok(text) => text,
        Err(error) => return Err(refuse_file(rt, path, &error)),
    };
    match read_config(rt.alloc(), text.as_str()) {
        Ok(config) => Ok(config),
        Err(fault) => Err(refuse_file(rt, path, &fault)),
    }
}

/// Says on the errors why a site's file is refused, and returns the exit status.
fn refuse_file<R: Eprint, D: Display>(rt: &R, path: &str, why: &D) -> u8 {
    let _ = eprintln!(rt; "othello_site: {path}: {why}");
    EXIT_REFUSED
}

/// Says at which address the site can't listen.
fn refuse_address<R: Eprint>(rt: &R, fault: &Unheard) -> u8 {
    let (name, error) = (fault.name, &fault.error);
    let _ = match &fault.address {
        Some(address) => eprintln!(rt; "othello_site: {name} = \"{address}\": {error}"),
        None => eprintln!(rt; "othello_site: {name}: {error}"),
    };
    EXIT_FAILED
}

/// Reads a site's file without serving, and says what its halls give away.
fn check<R: Paths + Print + Eprint + AllocGlobal>(rt: &R, path: &str) -> u8 {
    let config = match config_at(rt, path) {
        Ok(config) => config,
        Err(status) => return status,
    };
    match check_text(rt.alloc(), &config) {
        Ok(text) => say(rt, text.as_str()),
        Err(_) => EXIT_FAILED,
    }
}

/// What each hall has and its guests may have, and each customer where it is at home.
fn check_text(alloc: Global, config: &SiteConfig) -> Result<String, AllocError> {
    let mut out = String::new(alloc);
    for (hall, plan) in config.halls.iter().enumerate() {
        let number = hall.saturating_add(1);
        let whole = amount_text(alloc, plan.totals())?;
        let guests = amount_text(alloc, plan.limit(Group::Guests))?;
        writeln!(out, "hall {number}: {whole}; all guests: {guests}")?;
        push_customers(&mut out, alloc, config, hall, plan)?;
    }
    Ok(out)
}

/// Appends what the customers may have that are at home in a hall.
fn push_customers(
    out: &mut String,
    alloc: Global,
    config: &SiteConfig,
    hall: usize,
    plan: &Plan,
) -> Result<(), AllocError> {
    let number = hall.saturating_add(1);
    for (place, terms) in config.directory.customers.iter().enumerate() {
        if terms.hall as usize == hall {
            let customer = Who::Named(u32::try_from(place).unwrap_or(u32::MAX));
            let budget = amount_text(alloc, plan.budget(customer))?;
            let name = terms.name.as_str();
            writeln!(out, "hall {number}: {name}: {budget}")?;
        }
    }
    Ok(())
}

/// Serves a site that has no file: it listens for this host alone, and everybody is a guest who may take what is free.
fn alone<R: Host>(rt: &R) -> u8 {
    match SiteConfig::without_file(rt.alloc(), PORT) {
        Ok(Some(config)) => serve(rt, "", config),
        _ => EXIT_FAILED,
    }
}

/// The file with no more connections than the process has descriptors for, which is said; Err with the status where it has none.
fn fitting<R: Paths + Eprint>(rt: &R, config: SiteConfig) -> Result<SiteConfig, u8> {
    let mut config = config;
    let descriptors = rt.descriptors();
    let wanted = config.limits.connections;
    let has = descriptors.unwrap_or(u64::MAX);
    if !lower(&mut config, descriptors) {
        let _ = eprintln!(rt;
            "othello_site: {has} descriptors are too few (`ulimit -n`): it takes {KEPT_DESCRIPTORS} and one for each connection"
        );
        return Err(EXIT_FAILED);
    }
    let connections = config.limits.connections;
    if connections < wanted {
        let _ = eprintln!(rt;
            "othello_site: connections = {wanted}: lowered to {connections}, as the process may have {has} descriptors (`ulimit -n`)"
        );
    }
    Ok(config)
}

/// Serves by a file until it is told why the site ends, and says why.
fn serve<R: Host>(rt: &R, path: &str, config: SiteConfig) -> u8 {
    let config = match fitting(rt, config) {
        Ok(config) => config,
        Err(status) => return status,
    };
    match serve_config(rt, path, config) {
        Ok(None) => {
            let _ = eprintln!(rt;
                "othello_site: a hall has 65,536 segments and 4,194,304 nodes at most"
            );
            EXIT_REFUSED
        }
        Ok(Some(Why::Unheard(fault))) => refuse_address(rt, &fault),
        Ok(Some(Why::Drained)) => EXIT_OK,
        Ok(Some(Why::Idle)) => {
            let _ = eprintln!(rt; "othello_site: its workers could not be started");
            EXIT_FAILED
        }
        Ok(Some(Why::Deaf(error))) => {
            let _ = eprintln!(rt; "othello_site: no more connections can be taken: {error}");
            EXIT_FAILED
        }
        Err(error) => {
            let _ = eprintln!(rt; "othello_site: {error}");
            EXIT_FAILED
        }
    }
}
