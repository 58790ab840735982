//! Options that are numbers.

ghost use Rattle.std.specs.Prelude.{◌≡◌, ◌≤◌, false};
ghost use Rattle.clap.specs.Words.{found_of, one_of, rows_of, rule_of};
ghost use Rattle.command_line.specs.Numbers.{number_rule, SaysNumber};

use clap::builder::ValueParser;
use clap::{Arg, ArgAction, ArgMatches};
use std::alloc::Global;

/// Which numbers an option takes, and the one that stands where it is not given.
#[derive(Clone, Copy)]
pub(crate) struct Numbers {
    pub least: u32,
    pub most: u32,
    pub default: u32,
}

/// In how many parts the rows of a query may be fetched.
pub(crate) const PARTS: Numbers = Numbers {
    least: 1,
    most: 64,
    default: 1,
};

/// How many workers one fetch may have.
pub(crate) const WORKERS: Numbers = Numbers {
    least: 1,
    most: 16,
    default: 1,
};

/// How many connections are served at once.
pub(crate) const SEATS: Numbers = Numbers {
    least: 1,
    most: 32,
    default: 4,
};

/// After how many connections `serve` ends; 0 stands for no end.
pub(crate) const ACCEPT: Numbers = Numbers {
    least: 0,
    most: 65_535,
    default: 0,
};

/// How many seconds a connection may be without news from its client; 0 stands for ever.
pub(crate) const IDLE: Numbers = Numbers {
    least: 0,
    most: 65_535,
    default: 300,
};

/// How many versions are kept after an accepted put; 0 stands for all.
pub(crate) const KEEP: Numbers = Numbers {
    least: 0,
    most: 65_536,
    default: 0,
};

/// Over how many connections `query` fetches.
pub(crate) const STREAMS: Numbers = Numbers {
    least: 1,
    most: 16,
    default: 1,
};

/// The port, which has to be given.
pub(crate) const PORT: Numbers = Numbers {
    least: 0,
    most: 65_535,
    default: 0,
};

/// The number of a version, which has to be given. Those that a server never has are its own to
/// refuse.
pub(crate) const VERSION: Numbers = Numbers {
    least: 0,
    most: 4_294_967_295,
    default: 0,
};

/// The option of this name, whose value is one of the numbers. Help has a word for the value, and a
/// text.
pub(crate) fn number_option<'a>(
    alloc: Global,
    name: &'a str,
    numbers: Numbers,
    value: &'a str,
    help: &'a str,
) -> Arg<'a>
    ensures rule { rule_of result ≡ number_rule name.entry.now numbers }
    ensures local { result.global ≡ false }
{
    let (least, most) = (u64::from(numbers.least), u64::from(numbers.most));
    Arg::new(alloc, name)
        .long(name)
        .action(ArgAction::Set)
        .value_parser(ValueParser::unsigned(least, most))
        .value_name(value)
        .help(help)
}

/// The number that is given, or the one that stands where none is. clap refuses any other than
/// those of the option, so that `clamp` changes nothing.
pub(crate) fn number_of(matches: &ArgMatches<'_>, name: &str, numbers: Numbers) -> u32
    requires lowest { numbers.least ≤ numbers.default }
    requires highest { numbers.default ≤ numbers.most }
    ensures says { SaysNumber numbers (one_of name.now (rows_of (found_of matches.now))) result }
    ensures least { numbers.least ≤ result }
    ensures most { result ≤ numbers.most }
{
    matches
        .get_one::<u32>(name)
        .unwrap_or(numbers.default)
        .clamp(numbers.least, numbers.most)
}
