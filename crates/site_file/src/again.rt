//! A site's file that is read again: who was there before keeps its number and its home.
use crate::config::SiteConfig;
use crate::directory::{Directory, Terms};
use crate::faults::FileFault;
use crate::keys::Keys;
use crate::rate::Rate;
use crate::reading::{FileContents, customer_named};
use site_book::Amount;
use std::alloc::{AllocError, Global};

/// The word of what a site that runs can't change, where the file changes it.
pub(crate) fn changed_word(told: &FileContents, now: &SiteConfig) -> Option<&'static str> {
    if told.entrances.proxied != now.entrances.proxied {
        return Some("listen");
    }
    if told.entrances.plain != now.entrances.plain {
        return Some("plain");
    }
    if told.entrances.health != now.entrances.health {
        return Some("health");
    }
    if !is_same_path(&told.control, &now.control) {
        return Some("control");
    }
    if told.workers.count != now.workers.count {
        return Some("workers");
    }
    if told.workers.grain != now.workers.grain {
        return Some("grain");
    }
    if told.count as usize != now.halls.len() {
        return Some("halls");
    }
    None
}

/// Whether both files name the same path, or neither names one.
fn is_same_path(new: &Option<String>, now: &Option<String>) -> bool {
    match (new, now) {
        (None, None) => true,
        (Some(new), Some(now)) => new.as_str() == now.as_str(),
        (None, Some(_)) => false,
        (Some(_), None) => false,
    }
}

/// Gives the customers of a file the numbers that customers of the same names have, and the same homes unless the file asks for
/// others. Who is gone keeps its number, and has no budget and no key. Who is new comes behind. At an error what was told is of no
/// use.
pub(crate) fn renumber(
    alloc: Global,
    told: &mut FileContents,
    now: &Directory,
) -> Result<(), FileFault> {
    match renumber_all(alloc, told, &now.customers) {
        Ok(()) => Ok(()),
        Err(fault) => Err(FileFault::Memory(fault)),
    }
}

/// Gives each customer of a new file the number that it had by the file before, and new ones the next numbers. Each
/// keeps the home that it had, unless the new file asks for another.
fn renumber_all(alloc: Global, told: &mut FileContents, now: &[Terms]) -> Result<(), AllocError> {
    let numbers = numbers_of(alloc, &told.directory.customers, now)?;
    let count = count_of(&numbers, now.len());
    renumber_keys(&mut told.directory.keys, &numbers);
    let mut budgets = vec![in alloc; Amount::NOTHING; count]?;
    put(&mut budgets, &told.budgets, &numbers);
    let mut wanted = vec![in alloc; None; count]?;
    keep_homes(&mut wanted, now);
    put_wanted(&mut wanted, &told.wanted, &numbers);
    let customers = new_terms(alloc, &told.directory.customers, now, &numbers)?;
    told.budgets = budgets;
    told.wanted = wanted;
    told.directory.customers = customers;
    Ok(())
}

/// The number of each customer: that of one of the same name, or the next that nobody has.
fn numbers_of(alloc: Global, new: &[Terms], now: &[Terms]) -> Result<Vec<usize>, AllocError> {
    let mut numbers = Vec::new(alloc);
    let mut next = now.len();
    for terms in new {
        let same = customer_named(now, terms.name.as_str());
        numbers.push(same_or_next(same, &mut next))?;
    }
    Ok(numbers)
}

/// The number that the customer had, or else the next one that nobody has.
fn same_or_next(same: Option<usize>, next: &mut usize) -> usize {
    match same {
        Some(number) => number,
        None => {
            let number = *next;
            *next = number.saturating_add(1);
            number
        }
    }
}

/// How many customers there are: one more than the greatest of these numbers, and no fewer than `least`.
fn count_of(numbers: &[usize], least: usize) -> usize {
    let mut count = least;
    for number in numbers {
        count = count.max(number.saturating_add(1));
    }
    count
}

/// Puts each value at the place that its customer's number names.
fn put<T: Copy + Drop>(all: &mut [T], values: &[T], numbers: &[usize]) {
    for (place, number) in numbers.iter().enumerate() {
        if *number < all.len() && place < values.len() {
            all[*number] = values[place];
        }
    }
}

/// Lets each customer that was in the file before keep its home, the hall where it was.
fn keep_homes(wanted: &mut [Option<u32>], now: &[Terms]) {
    for (place, terms) in now.iter().enumerate() {
        if place < wanted.len() {
            wanted[place] = Some(terms.hall);
        }
    }
}

/// Puts each home (a hall) that the new file asks for at its customer's number.
fn put_wanted(all: &mut [Option<u32>], wanted: &[Option<u32>], numbers: &[usize]) {
    for (place, number) in numbers.iter().enumerate() {
        if let Some(hall) = wanted.get(place).copied().flatten() {
            if *number < all.len() {
                all[*number] = Some(hall);
            }
        }
    }
}

/// The terms of all customers by their numbers: those of the file before, without any connection, unless the new file
/// says what they may have; then the new customers'.
fn new_terms(
    alloc: Global,
    new: &[Terms],
    now: &[Terms],
    numbers: &[usize],
) -> Result<Vec<Terms>, AllocError> {
    let mut customers = Vec::new(alloc);
    for terms in now {
        push_terms(&mut customers, &terms.name, 0, terms.rate, terms.hall)?;
    }
    for (place, terms) in new.iter().enumerate() {
        if place < numbers.len() {
            set_terms(&mut customers, numbers[place], terms)?;
        }
    }
    Ok(customers)
}

/// Puts what the new file says of a customer at its number, or at the end for a new customer.
fn set_terms(customers: &mut Vec<Terms>, number: usize, terms: &Terms) -> Result<(), AllocError> {
    if number < customers.len() {
        customers[number].connections = terms.connections;
        customers[number].rate = terms.rate;
        return Ok(());
    }
    push_terms(
        customers,
        &terms.name,
        terms.connections,
        terms.rate,
        terms.hall,
    )
}

/// Appends what the file says of one customer.
fn push_terms(
    customers: &mut Vec<Terms>,
    name: &String,
    connections: u32,
    rate: Rate,
    hall: u32,
) -> Result<(), AllocError> {
    let name = name.clone()?;
    customers.push(Terms {
        name,
        connections,
        rate,
        hall,
    })?;
    Ok(())
}

/// The number that a customer of the new file has from now on.
fn new_number(numbers: &[usize], customer: u32) -> u32 {
    match numbers.get(customer as usize) {
        Some(number) => u32::try_from(*number).unwrap_or(u32::MAX),
        None => u32::MAX,
    }
}

/// Has the keys name their customers by their new numbers.
fn renumber_keys(keys: &mut Keys, numbers: &[usize]) {
    for key in &mut keys.tokens {
        key.customer = new_number(numbers, key.customer);
    }
    for key in &mut keys.certificates {
        key.customer = new_number(numbers, key.customer);
    }
    for key in &mut keys.networks {
        key.customer = new_number(numbers, key.customer);
    }
}
