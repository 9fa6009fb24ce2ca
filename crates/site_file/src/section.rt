//! A table of a site's file, whose words are taken by their types.
ghost use Rattle.std.specs.Prelude.{◌≡◌, ◌≤◌, IfOk, IfSome};
ghost use Rattle.site_file.specs.Counts.{count_within};

use crate::faults::{FileFault, line_of};
use std::alloc::{AllocError, Global};
use std::net::SocketAddr;
use toml::{Table, Value};

/// A table, with where it stands in the file.
#[derive(Clone, Copy)]
pub(crate) struct Section<'t> {
    pub(crate) alloc: Global,
    text: &'t str,
    table: &'t Table,
    head: &'t str,
    number: usize,
}

/// What a list of tables is to be.
pub(crate) const TABLES: &str = "is to be tables, each with a head of two brackets";

/// The number as one from `least` to `most`; None where it isn't within them.
pub(crate) fn count_of(number: i64, least: u32, most: u32) -> Option<u32>
    ensures value { result ≡ count_within number least most }
    ensures within { IfSome result (λ count. (least ≤ count) × (count ≤ most)) }
{
    match u32::try_from(number) {
        Ok(count) if least <= count && count <= most => Some(count),
        _ => None,
    }
}

impl<'t> Section<'t> {
    /// The whole file as one table.
    pub(crate) fn whole(alloc: Global, text: &'t str, table: &'t Table) -> Section<'t> {
        Section {
            alloc,
            text,
            table,
            head: "",
            number: 0,
        }
    }

    /// The fault of a site's file, in these words, at the line where this word of the table stands.
    pub(crate) fn fault(&self, key: &str, what: &str) -> FileFault {
        let line = line_of(self.text, self.head, self.number, key);
        FileFault::at(self.alloc, line, what)
    }

    /// The fault of a site's file that says what is wrong with a word of the table, at the line where it stands.
    pub(crate) fn told(&self, key: &str, what: &str) -> FileFault {
        match format!(in self.alloc; "`{key}` {what}") {
            Ok(words) => self.fault(key, words.as_str()),
            Err(fault) => FileFault::Memory(fault),
        }
    }

    /// Whether the table has this word.
    pub(crate) fn has(&self, key: &str) -> bool {
        self.table.get(key).is_some()
    }

    /// A whole number within these limits, if the word is there.
    pub(crate) fn count(&self, key: &str, least: u32, most: u32) -> Result<Option<u32>, FileFault>
        ensures { IfOk result (λ found. IfSome found (λ count. (least ≤ count) × (count ≤ most))) }
    {
        let Some(value) = self.table.get(key) else {
            return Ok(None);
        };
        let found = match value {
            Value::Integer(number) => count_of(*number, least, most),
            _ => None,
        };
        match found {
            Some(count) => Ok(Some(count)),
            None => Err(self.no_count(key, least, most)),
        }
    }

    /// The fault that a word of the table is no whole number within these limits.
    fn no_count(&self, key: &str, least: u32, most: u32) -> FileFault {
        match format!(in self.alloc; "is to be a whole number from {least} to {most}") {
            Ok(what) => self.told(key, what.as_str()),
            Err(fault) => FileFault::Memory(fault),
        }
    }

    /// A whole number within these limits of a word that the table must have; else its fault.
    pub(crate) fn needed_count(&self, key: &str, least: u32, most: u32) -> Result<u32, FileFault>
        ensures { IfOk result (λ count. (least ≤ count) × (count ≤ most)) }
    {
        match self.count(key, least, most)? {
            Some(count) => Ok(count),
            None => Err(self.told(key, "is missing")),
        }
    }

    /// A text of the table, if it has this word; a fault where it is no text.
    fn word(&self, key: &str, what: &str) -> Result<Option<&'t str>, FileFault> {
        match self.table.get(key) {
            None => Ok(None),
            Some(Value::String(text)) => Ok(Some(text.as_str())),
            Some(_) => Err(self.told(key, what)),
        }
    }

    /// An address and a port, if the word is there.
    pub(crate) fn place(&self, key: &str) -> Result<Option<SocketAddr>, FileFault> {
        let what = "is to be an address and a port, as \"127.0.0.1:4711\"";
        let Some(text) = self.word(key, what)? else {
            return Ok(None);
        };
        match SocketAddr::parse_ascii(text.as_bytes()) {
            Ok(place) if place.port() > 0 => Ok(Some(place)),
            _ => Err(self.told(key, what)),
        }
    }

    /// The path of a file, if the word is there.
    pub(crate) fn path(&self, key: &str) -> Result<Option<&'t str>, FileFault> {
        let what = "is to be a path from the root, as \"/run/othello-site/control\"";
        match self.word(key, what)? {
            Some(path) if !path.starts_with('/') => Err(self.told(key, what)),
            path => Ok(path),
        }
    }

    /// The name in a customer's table of a site's file, which must be there: letters, digits and these signs.
    pub(crate) fn name(&self, signs: &[u8]) -> Result<&'t str, FileFault> {
        let what = "is to be one word";
        match self.word("name", what)? {
            None => Err(self.told("name", "is missing")),
            Some(name) if is_name(name, signs) => Ok(name),
            Some(_) => Err(self.told("name", what)),
        }
    }

    /// The values of a list in a table of a site's file; no values where the word isn't there; a fault where it is no
    /// list.
    pub(crate) fn list(&self, key: &str, what: &str) -> Result<&'t [Value], FileFault> {
        match self.table.get(key) {
            None => Ok(&[]),
            Some(Value::Array(list)) => Ok(list.as_slice()),
            Some(_) => Err(self.told(key, what)),
        }
    }

    /// The table of this name within this one; a fault where it is missing, or no table. `head` is how the file writes
    /// its head.
    pub(crate) fn table(&self, key: &str, head: &'t str) -> Result<Section<'t>, FileFault> {
        match self.table.get(key) {
            None => Err(self.told(key, "is missing")),
            Some(Value::Table(table)) => Ok(Section {
                table,
                head,
                ..*self
            }),
            Some(_) => Err(self.told(key, "is to be a table")),
        }
    }

    /// The table of this name within this one, or None where it is missing; a fault where it is no table.
    pub(crate) fn part(&self, key: &str, head: &'t str) -> Result<Option<Section<'t>>, FileFault> {
        if self.has(key) {
            Ok(Some(self.table(key, head)?))
        } else {
            Ok(None)
        }
    }

    /// The table of this number among those of this name, each of which has a head of two brackets.
    pub(crate) fn entry(
        &self,
        key: &'t str,
        number: usize,
        value: &'t Value,
    ) -> Result<Section<'t>, FileFault> {
        match value {
            Value::Table(table) => Ok(Section {
                table,
                head: key,
                number,
                ..*self
            }),
            _ => Err(self.told(key, TABLES)),
        }
    }

    /// Refuses a table of a site's file that has a word which isn't among these.
    pub(crate) fn end(&self, known: &[&str]) -> Result<(), FileFault> {
        for key in self.table.keys() {
            let key = key.as_str();
            if !is_among(known, key) {
                return Err(self.told(key, "is an unknown word"));
            }
        }
        Ok(())
    }
}

/// The text of a value; an empty one, which is no name, digest or address, where it is none.
pub(crate) fn text_of(value: &Value) -> &str {
    match value {
        Value::String(text) => text.as_str(),
        _ => "",
    }
}

/// Whether a word is one of these words.
pub(crate) fn is_among(words: &[&str], word: &str) -> bool {
    for other in words {
        if *other == word {
            return true;
        }
    }
    false
}

/// Whether a name has letters, digits and these signs alone.
fn is_name(name: &str, signs: &[u8]) -> bool {
    for byte in name.as_bytes() {
        if !byte.is_ascii_alphanumeric() && !signs.contains(byte) {
            return false;
        }
    }
    !name.is_empty()
}
