//! The text of a site's file as what a site can go by.
ghost use Rattle.std.specs.Prelude.{◌≡◌, IfOk, None};
ghost use Rattle.site_file.specs.Checks.{fault_of};
ghost use Rattle.site_file.specs.Homes.{AreAtHome};

use crate::again::{changed_word, renumber};
use crate::checks::DirectoryFault;
use crate::config::SiteConfig;
use crate::directory::Directory;
use crate::faults::{FileFault, line_of};
use crate::homes::{given_at, plans_of, settle};
use crate::reading::{FileContents, told_in};
use crate::section::Section;
use site_book::Amount;
use std::alloc::{AllocError, Global};

/// Reads a file, and checks it whole. Each customer has its budget in one hall, its home. An error says the line and what is wrong there.
pub fn read_config(alloc: Global, text: &str) -> Result<SiteConfig, FileFault>
    ensures homes { IfOk result (λ config. AreAtHome config.halls.items config.directory.customers.items) }
    ensures faultless { IfOk result (λ config. fault_of config.directory.customers.items config.directory.guest config.directory.keys ≡ None) }
{
    let told = told_of(alloc, text)?;
    let config = config_of(alloc, text, told)?;
    checked(alloc, text, config)
}

/// Reads a file while a site goes by this. Customers of the same name keep their numbers, and their homes unless the file asks for
/// others; who is gone keeps its number, and has no budget and no key; who is new comes behind. What a site that runs can't change
/// (where it listens, its workers, the number of its halls) is refused.
pub fn read_config_again(
    alloc: Global,
    text: &str,
    now: &SiteConfig,
) -> Result<SiteConfig, FileFault>
    ensures homes { IfOk result (λ config. AreAtHome config.halls.items config.directory.customers.items) }
{
    let first = read_config(alloc, text)?;
    drop(first);
    let mut told = told_of(alloc, text)?;
    if let Some(word) = changed_word(&told, now) {
        return Err(changed(alloc, text, word));
    }
    renumber(alloc, &mut told, &now.directory)?;
    config_of(alloc, text, told)
}

/// All that a site file's text says, or its first fault.
fn told_of(alloc: Global, text: &str) -> Result<FileContents, FileFault> {
    match toml::table_from_str(alloc, text) {
        Ok(table) => told_in(&Section::whole(alloc, text, &table)),
        Err(fault) => Err(FileFault::of_toml(alloc, text, &fault)),
    }
}

/// The fault of a file read again that changes a word which can't be changed while the site runs.
fn changed(alloc: Global, text: &str, word: &str) -> FileFault {
    match format!(in alloc; "`{word}` can't be changed while the site runs") {
        Ok(words) => FileFault::at(alloc, line_of(text, "", 0, word), words.as_str()),
        Err(fault) => FileFault::Memory(fault),
    }
}

/// What a site goes by, of what was told, with each customer at its home.
fn config_of(alloc: Global, text: &str, told: FileContents) -> Result<SiteConfig, FileFault>
    ensures { IfOk result (λ config. AreAtHome config.halls.items config.directory.customers.items) }
{
    let FileContents {
        entrances,
        control,
        workers,
        limits,
        count,
        guests,
        budgets,
        wanted,
        directory,
    } = told;
    let mut directory = directory;
    settle(
        alloc,
        count as usize,
        &guests,
        &budgets,
        &wanted,
        &mut directory.customers,
    )?;
    match plans_of(alloc, count, &guests, &budgets, &directory.customers)? {
        Ok(halls) => Ok(SiteConfig {
            entrances,
            control,
            workers,
            limits,
            halls,
            directory,
        }),
        Err(hall) => {
            let given = given_at(hall, &guests, &budgets, &directory.customers);
            Err(beyond(alloc, text, hall, given, guests.totals))
        }
    }
}

/// What a site goes by, where its directory has no fault.
fn checked(alloc: Global, text: &str, config: SiteConfig) -> Result<SiteConfig, FileFault>
    ensures same { IfOk result (λ same. (same.halls ≡ config.halls) × (same.directory ≡ config.directory)) }
    ensures faultless { IfOk result (λ config. fault_of config.directory.customers.items config.directory.guest config.directory.keys ≡ None) }
{
    let SiteConfig {
        entrances,
        control,
        workers,
        limits,
        halls,
        directory,
    } = config;
    match directory.checked() {
        Ok(directory) => Ok(SiteConfig {
            entrances,
            control,
            workers,
            limits,
            halls,
            directory,
        }),
        Err(faulty) => Err(told(alloc, text, &faulty.directory, faulty.fault)),
    }
}

/// The fault of a directory in words, with its line in the text.
fn told(alloc: Global, text: &str, directory: &Directory, fault: DirectoryFault) -> FileFault {
    match fault {
        DirectoryFault::Rates => FileFault::at(alloc, 1, "a rate is above 0"),
        DirectoryFault::Keyless(number) => of_customer(
            alloc,
            text,
            directory,
            number,
            "has no token, certificate or address",
        ),
        DirectoryFault::Shared(number) => of_customer(
            alloc,
            text,
            directory,
            number as usize,
            "has a key that stands twice in the file",
        ),
    }
}

/// The fault of a customer in words.
fn of_customer(
    alloc: Global,
    text: &str,
    directory: &Directory,
    number: usize,
    what: &str,
) -> FileFault {
    let name = match directory.customers.get(number) {
        Some(terms) => terms.name.as_str(),
        None => "",
    };
    match format!(in alloc; "the customer {name} {what}") {
        Ok(words) => FileFault::at(
            alloc,
            line_of(text, "customer", number, "name"),
            words.as_str(),
        ),
        Err(fault) => FileFault::Memory(fault),
    }
}

/// The fault that more is given away in a hall than the hall has, in words.
fn beyond(alloc: Global, text: &str, hall: u32, given: Amount, whole: Amount) -> FileFault {
    match beyond_text(alloc, hall, given, whole) {
        Ok(words) => FileFault::at(alloc, line_of(text, "", 0, "hall"), words.as_str()),
        Err(fault) => FileFault::Memory(fault),
    }
}

/// What is said where the budgets in a hall are beyond what the hall has.
fn beyond_text(
    alloc: Global,
    hall: u32,
    given: Amount,
    whole: Amount,
) -> Result<String, AllocError> {
    let given = amount_text(alloc, given)?;
    let whole = amount_text(alloc, whole)?;
    let hall = hall.saturating_add(1);
    format!(in alloc; "hall {hall}: the budgets' sum, {given}, is more than the hall has, {whole}")
}

/// An amount of sessions, segments and nodes in words.
pub fn amount_text(alloc: Global, amount: Amount) -> Result<String, AllocError> {
    let (sessions, segments, nodes) = (amount.sessions, amount.segments, amount.nodes);
    format!(in alloc; "{sessions} sessions, {segments} segments, {nodes} nodes")
}
