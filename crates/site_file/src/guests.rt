//! Amounts in a site's file: what a hall has, and what guests may have.
use crate::config::FULL_HALL;
use crate::faults::FileFault;
use crate::section::Section;
use site_book::Amount;

/// What each hall has, and what its guests may have.
#[derive(Clone, Copy)]
pub(crate) struct Guests {
    pub(crate) totals: Amount,
    pub(crate) each: Amount,
    pub(crate) network: Amount,
    pub(crate) together: Amount,
}

/// The greatest number that a file may have.
pub(crate) const GREATEST: u32 = 1_000_000_000;

/// The words of an amount.
pub(crate) const AMOUNT: [&str; 3] = ["sessions", "segments", "nodes"];

/// The amount that a table says; a word that isn't there is 0.
pub(crate) fn amount_in(section: &Section<'_>) -> Result<Amount, FileFault> {
    let sessions = section.count("sessions", 0, GREATEST)?.unwrap_or(0);
    let segments = section.count("segments", 0, GREATEST)?.unwrap_or(0);
    let nodes = section.count("nodes", 0, GREATEST)?.unwrap_or(0);
    Ok(Amount {
        sessions,
        segments: u64::from(segments),
        nodes: u64::from(nodes),
    })
}

/// The amount of a table that has no other words, or this one where the table isn't there.
fn amount_or(part: Option<Section<'_>>, usual: Amount) -> Result<Amount, FileFault> {
    match part {
        None => Ok(usual),
        Some(section) => {
            section.end(&AMOUNT)?;
            amount_in(&section)
        }
    }
}

/// What a file says of its halls and of their guests.
pub(crate) fn guests_in(
    file: &Section<'_>,
    guests: &Section<'_>,
    each: &Section<'_>,
) -> Result<Guests, FileFault> {
    let totals = amount_or(file.part("hall", "hall")?, FULL_HALL)?;
    if totals.sessions > 64 {
        return Err(
            file.table("hall", "hall")?
                .fault("sessions", "a hall has 64 sessions at most"),
        );
    }
    let each = amount_in(each)?;
    let together = amount_or(
        Some(guests.table("together", "guests.together")?),
        Amount::NOTHING,
    )?;
    let network = amount_or(guests.part("network", "guests.network")?, together)?;
    Ok(Guests {
        totals,
        each,
        network,
        together,
    })
}
