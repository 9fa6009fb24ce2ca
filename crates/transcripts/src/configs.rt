//! The player of texts: scenes of a file of `othello_site`.
//!
//! Rows `| LINE` are the lines of a file, and `file` begins another one. Rows `N LINE` are a file that differs in its line N alone:
//! these lines stand in its place. After such rows, or `read`, the file is read; where one of them is `again`, as one that is read
//! while a site goes by the last. It is answered by `read`, or by what is wrong in it.
//!
//! Rows that begin with `?` ask for what was read last: `? config` for its numbers, `? halls` for the plans, `? who TOKEN CERTIFICATE
//! ADDRESS` (`-` where there is none) for whose a connection is.
use crate::agreement::{Agreement, Done};
use crate::compared::compare_text;
use crate::file_lines::{FileLines, has_row, push_line};
use crate::groups::RowGroup;
use crate::scenes::{Row, Scene};
use crate::words::{LineWords, first_word, rest_of, tell};
use site_book::{Amount, Group, Plan, Who};
use site_file::{Address, FileFault, Limits, SiteConfig, Terms, read_config, read_config_again};
use std::alloc::Global;
use std::fmt::Write;
use std::net::{IpAddr, SocketAddr};

/// Plays a scene of a file: group by group.
pub(crate) fn play_config(alloc: Global, scene: &Scene<'_>, agreement: &mut Agreement) -> Done {
    let mut file = ConfigFile::new(alloc);
    let mut group = RowGroup::new(alloc, scene.head);
    for row in scene.rows.iter() {
        if group.is_over(*row) {
            file.play(&mut group, agreement)?;
        }
        group.take(*row)?;
    }
    file.play(&mut group, agreement)
}

/// A file, and what was read last.
#[derive(Drop)]
struct ConfigFile {
    alloc: Global,
    lines: FileLines,
    config: Option<SiteConfig>,
}

impl ConfigFile {
    /// An empty file of a site, of which nothing was read.
    fn new(alloc: Global) -> ConfigFile {
        ConfigFile {
            alloc,
            lines: FileLines::new(alloc),
            config: None,
        }
    }

    /// Reads the file with what rows change in it, and says what comes of it.
    fn read(&mut self, rows: &[Row<'_>], came: &mut String) -> Done {
        let text = self.lines.text(rows)?;
        match self.read_text(text.as_str(), has_row(rows, "again")) {
            Ok(config) => {
                self.config = Some(config);
                came.push_str("read\n")
            }
            Err(fault) => writeln!(came, "{fault}"),
        }
    }

    /// Reads a file's text: as one that is read again, or else anew.
    fn read_text(&self, text: &str, is_again: bool) -> Result<SiteConfig, FileFault> {
        match &self.config {
            Some(now) if is_again => read_config_again(self.alloc, text, now),
            _ => read_config(self.alloc, text),
        }
    }

    /// Writes what a row asks for of the file.
    fn tell(&self, row: &str, came: &mut String) -> Done {
        let Some(config) = &self.config else {
            return came.push_str("nothing was read\n");
        };
        let asked = rest_of(row);
        match first_word(asked) {
            "config" => push_config(config, came),
            "halls" => push_halls(config, came),
            _ => push_who(self.alloc, config, who_in(config, asked), came),
        }
    }

    /// Takes the rows of a group, and tells what comes of them.
    fn answer(&mut self, rows: &[Row<'_>], came: &mut String) -> Done {
        if !has_row(rows, "?") {
            self.lines.take(rows)?;
            return self.read(rows, came);
        }
        for row in rows {
            self.tell(row.text, came)?;
        }
        Ok(())
    }

    /// Plays a group, and compares what comes of it with what is due; then the group has no rows.
    fn play(&mut self, group: &mut RowGroup<'_>, agreement: &mut Agreement) -> Done {
        let mut came = String::new(self.alloc);
        self.answer(group.given.as_slice(), &mut came)?;
        compare_text(agreement, group.end, group.dues.as_slice(), came.as_str())?;
        group.clear();
        Ok(())
    }
}

/// Whose a connection is with this token, certificate and address.
fn who_in(config: &SiteConfig, asked: &str) -> Option<Who> {
    let mut words = LineWords::of(rest_of(asked));
    let token = bytes_of(words.word());
    let certificate = bytes_of(words.word());
    match IpAddr::parse_ascii(words.word().unwrap_or("").as_bytes()) {
        Ok(ip) => config.directory.who(token, certificate, Address::of_ip(ip)),
        Err(_) => None,
    }
}

/// The bytes of a word; None where the word is `-`.
fn bytes_of(word: Option<&str>) -> Option<&[u8]> {
    match word {
        Some(word) if word != "-" => Some(word.as_bytes()),
        _ => None,
    }
}

/// Appends a customer's name, behind its number where it is named.
fn push_who(alloc: Global, config: &SiteConfig, who: Option<Who>, came: &mut String) -> Done {
    let Some(who) = who else {
        return came.push_str("nobody\n");
    };
    if let Who::Named(number) = who {
        write!(came, "{number} ")?;
    }
    push_line(came, config.directory.name_of(alloc, who)?.as_str())
}

/// Appends all numbers that aren't a plan's.
fn push_config(config: &SiteConfig, came: &mut String) -> Done {
    let entrances = config.entrances;
    push_place(came, "listen", entrances.proxied)?;
    push_place(came, "plain", entrances.plain)?;
    push_place(came, "health", entrances.health)?;
    if let Some(path) = &config.control {
        came.push_str("control ")?;
        push_line(came, path.as_str())?;
    }
    let workers = u64::from(config.workers.count.unwrap_or(0));
    tell(came, "workers", &[workers, u64::from(config.workers.grain)])?;
    push_limits(config.limits, came)?;
    push_terms(&config.directory.guest, came)?;
    for terms in &config.directory.customers {
        push_terms(terms, came)?;
    }
    Ok(())
}

/// Appends a word and a place's port; nothing where there is no place.
fn push_place(came: &mut String, word: &str, place: Option<SocketAddr>) -> Done {
    match place {
        Some(place) => tell(came, word, &[u64::from(place.port())]),
        None => Ok(()),
    }
}

/// Appends the limits of a site's file, number by number.
fn push_limits(limits: Limits, came: &mut String) -> Done {
    tell(
        came,
        "limits",
        &[
            u64::from(limits.connections),
            u64::from(limits.welcome),
            u64::from(limits.idle),
            u64::from(limits.write),
            u64::from(limits.hangup),
            u64::from(limits.guest),
        ],
    )
}

/// Appends a customer's name, connections, rate and home.
fn push_terms(terms: &Terms, came: &mut String) -> Done {
    tell(
        came,
        terms.name.as_str(),
        &[
            u64::from(terms.connections),
            u64::from(terms.rate.period),
            u64::from(terms.rate.burst),
            u64::from(terms.hall),
        ],
    )
}

/// Appends the plan of each hall of the file.
fn push_halls(config: &SiteConfig, came: &mut String) -> Done {
    for plan in &config.halls {
        push_plan(plan, config.directory.customers.len(), came)?;
    }
    Ok(())
}

/// Appends what a plan allows the hall, guests, and each customer.
fn push_plan(plan: &Plan, customers: usize, came: &mut String) -> Done {
    push_amount(came, "hall", plan.totals())?;
    push_amount(came, "each guest", plan.budget(Who::V4(0)))?;
    push_amount(came, "network", plan.limit(Group::Network(Who::V4(0))))?;
    push_amount(came, "all guests", plan.limit(Group::Guests))?;
    for number in 0..u32::try_from(customers).unwrap_or(u32::MAX) {
        push_amount(came, "customer", plan.budget(Who::Named(number)))?;
    }
    Ok(())
}

/// Appends a word and an amount's sessions, segments and nodes.
fn push_amount(came: &mut String, word: &str, amount: Amount) -> Done {
    let sessions = u64::from(amount.sessions);
    tell(came, word, &[sessions, amount.segments, amount.nodes])
}
