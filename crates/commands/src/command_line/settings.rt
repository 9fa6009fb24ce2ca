//! The options of `othello`'s commands that have a number for their value, and their limits.
ghost use Rattle.std.specs.Prelude.{◌≡◌, ◌≤◌, IfErr, IfOk, OnErr, is_some};
ghost use Rattle.clap.specs.Words.{first_of, found_of, rows_of};

use clap::ArgMatches;
use protocol::word_number;
use std::fmt::{self, Display};

/// An option of a command that has a number for its value.
#[derive(Clone, Copy)]
pub(crate) struct Setting {
    /// Its word, without the two hyphens.
    pub name: &'static str,
    /// The letter that stands for its value in the usage.
    pub value: &'static str,
    /// The least value.
    pub least: u32,
    /// The greatest value.
    pub most: u32,
    /// The value where the words give none; an option without one has to be given.
    pub default: Option<u32>,
    /// What help says of it.
    pub help: &'static str,
}

/// The error message for a value outside its limits.
impl Display for Setting {
    ghost use Rattle.std.specs.Prelude.{Some};
    ghost use Rattle.commands.specs.command_line.Settings.{limits_text, setting_of};

    ghost output = { λ setting. Some (limits_text (setting_of setting)) };

    /// What is said where an option's number is outside its limits.
    fn fmt<W: fmt::Write>(&self, f: &mut fmt::Formatter<W>) -> fmt::Result {
        write!(
            f,
            "--{} takes a number from {} to {}",
            self.name, self.least, self.most
        )
    }
}

/// What the words lack, where they are refused.
#[derive(Clone, Copy)]
pub(crate) enum Missing {
    /// A command.
    Command,
    /// A number within its limits for this option.
    Value(Setting),
    /// `--ordered` without another option beside it.
    OrderedAlone,
}

impl Setting {
    ghost use Rattle.commands.specs.command_line.Settings.{number_asked, setting_of, value_asked};

    /// The value that the words of a command give this option, or its default. Err where that is no number of 1 to 8
    /// digits within the limits, or where neither is there.
    pub fn value_in(&self, given: &ArgMatches<'_>) -> Result<u32, Missing>
        ensures value { IfOk result (λ n. value_asked (setting_of self.now) (rows_of (found_of given.now)) ≡ Some n) }
        ensures none { OnErr result (value_asked (setting_of self.now) (rows_of (found_of given.now)) ≡ None) }
        ensures fault { IfErr result (λ missing. missing ≡ Missing.Value self.now) }
        ensures least { IfOk result (λ n. self.now.least ≤ n) }
        ensures most { IfOk result (λ n. n ≤ self.now.most) }
    {
        match self.number_in(given) {
            Some(number) if self.least <= number && number <= self.most => Ok(number),
            _ => Err(Missing::Value(*self)),
        }
    }

    /// Whether the words of a command give this option, with a number or another value.
    pub fn is_given(&self, given: &ArgMatches<'_>) -> bool
        ensures { result ≡ is_some (first_of self.now.name.now (rows_of (found_of given.now))) }
    {
        match given.get_str(self.name) {
            Some(_) => true,
            None => false,
        }
    }

    /// The number that the words of a command give this option, or its default, within the limits or not. None where
    /// the words give no number of 1 to 8 digits, or give nothing and there is no default.
    fn number_in(&self, given: &ArgMatches<'_>) -> Option<u32>
        ensures { result ≡ number_asked (setting_of self.now) (rows_of (found_of given.now)) }
    {
        match given.get_str(self.name) {
            Some(text) => word_number(text.as_bytes()),
            None => self.default,
        }
    }
}

/// The depth that one worker searches alone, which both commands have.
pub(crate) const GRAIN: Setting = Setting {
    name: "grain",
    value: "g",
    least: 0,
    most: 6,
    default: Some(2),
    help: "the depth that one worker searches alone, 0 to 6; 4 is fastest for most jobs [default: 2]",
};

/// How many sessions are served.
pub(crate) const SESSIONS: Setting = Setting {
    name: "sessions",
    value: "k",
    least: 1,
    most: 1000,
    default: None,
    help: "how many sessions to serve before the program ends, 1 to 1000",
};

/// The port; at 0 the system chooses one.
pub(crate) const PORT: Setting = Setting {
    name: "port",
    value: "p",
    least: 0,
    most: 65535,
    default: Some(0),
    help: "the port, 0 to 65535; at 0 the system chooses one [default: 0]",
};

/// The number of workers.
pub(crate) const WORKERS: Setting = Setting {
    name: "workers",
    value: "w",
    least: 1,
    most: 32,
    default: Some(4),
    help: "the workers of the pool, 1 to 32 [default: 4]",
};

/// The segments of all tenants together.
pub(crate) const SEGMENTS: Setting = Setting {
    name: "segments",
    value: "s",
    least: 1,
    most: 65536,
    default: Some(4096),
    help: "the segments of all tenants together, 1 to 65536 [default: 4096]",
};

/// The nodes of all tenants together.
pub(crate) const NODES: Setting = Setting {
    name: "nodes",
    value: "n",
    least: 1,
    most: 4194304,
    default: Some(65536),
    help: "the nodes of all tenants together, 1 to 4194304 [default: 65536]",
};
