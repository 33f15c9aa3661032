//! What `clap` found in the words.

ghost use Rattle.std.specs.Prelude.{◌≡◌, option_map};
ghost use Rattle.clap.specs.Words.{found_of, first_value, rows_of};
ghost use Rattle.ng_words.specs.Orders.{is_set, given_in, has_flag, lone_file, both, row_of, asked_in, meant};

use crate::order::{Flags, Order};
use clap::ArgMatches;

// Whether a flag was given. (`get_flag` has no clause that says which of the two it answers to any other value.)
fn is_set(matches: &ArgMatches, id: &str) -> bool
    ensures { result ≡ is_set (first_value (found_of matches.now) id.now) }
{
    match matches.get_str(id) {
        Some(value) => value == "true",
        None => false,
    }
}

// The flags that were given.
fn flags(matches: &ArgMatches) -> Flags
    ensures { result ≡ (given_in (rows_of (found_of matches.now))).flags }
{
    Flags {
        every: is_set(matches, "every"),
        ops: is_set(matches, "ops"),
        report: is_set(matches, "report"),
        trace: is_set(matches, "trace"),
    }
}

// Whether any flag was given.
fn has_flag(flags: Flags) -> bool
    ensures { result ≡ has_flag flags }
{
    flags.every || flags.ops || flags.report || flags.trace
}

// The one file, where no other and no flag stands beside it.
fn lone_file<'a>(flags: Flags, first: Option<&'a str>, second: Option<&'a str>) -> Option<&'a str>
    ensures { option_map (λ s. s.now) result ≡ lone_file flags (option_map (λ s. s.now) first.entry) (option_map (λ s. s.now) second.entry) }
{
    match (first, second) {
        (Some(app), None) if !has_flag(flags) => Some(app),
        _ => None,
    }
}

// The order of a run, which names both files.
fn both<'a>(flags: Flags, first: Option<&'a str>, second: Option<&'a str>) -> Option<Order<'a>>
    ensures { option_map meant result ≡ both flags (option_map (λ s. s.now) first.entry) (option_map (λ s. s.now) second.entry) }
{
    match (first, second) {
        (Some(app), Some(events)) => Some(Order::Run(flags, app, events)),
        _ => None,
    }
}

// The row of the table that a word has.
fn row<'a>(
    name: &str,
    flags: Flags,
    first: Option<&'a str>,
    second: Option<&'a str>,
) -> Option<Order<'a>>
    ensures { option_map meant result ≡ row_of name.now flags (option_map (λ s. s.now) first.entry) (option_map (λ s. s.now) second.entry) }
{
    match name {
        "run" => both(flags, first, second),
        "check" => lone_file(flags, first, second).map(Order::Check),
        "compile" => lone_file(flags, first, second).map(Order::Compile),
        _ => None,
    }
}

/// The row of the table that the words have.
pub(crate) fn order<'a>(matches: &ArgMatches<'a>) -> Option<Order<'a>>
    ensures { option_map meant result ≡ asked_in (given_in (rows_of (found_of matches.now))) }
{
    let name = matches.get_str("command")?;
    let first = matches.get_str("first");
    let second = matches.get_str("second");
    row(name, flags(matches), first, second)
}
