//! The command line, as `clap` knows it.

ghost use Rattle.std.specs.Prelude.{◌≡◌, IfOk, false};
ghost use Rattle.clap.specs.Words.{app_of, rule_of};
ghost use Rattle.ng_words.specs.Command.{positional, flag, command};

use clap::{Arg, ArgAction, Command};
use std::alloc::{AllocError, Global};

// A word that may be left out with those that follow it.
fn positional(alloc: Global, id: &str) -> Arg
    ensures rule { rule_of result ≡ positional id.entry.now }
    ensures own { result.global ≡ false }
{
    Arg::new(alloc, id).action(ArgAction::Set)
}

// A flag with two signs, which may be left out.
fn flag(alloc: Global, id: &str) -> Arg
    ensures rule { rule_of result ≡ flag id.entry.now }
    ensures own { result.global ≡ false }
{
    Arg::new(alloc, id).long(id).action(ArgAction::SetTrue)
}

/// The command: three words and four flags.
pub(crate) fn command<'a>(alloc: Global) -> Result<Command<'a>, AllocError>
    ensures { IfOk result (λ c. app_of c ≡ command) }
{
    let nameless = Command::new(alloc, "ivy").no_binary_name(true);
    let named = nameless.arg(positional(alloc, "command"))?;
    let one = named.arg(positional(alloc, "first"))?;
    let two = one.arg(positional(alloc, "second"))?;
    let every = two.arg(flag(alloc, "every"))?;
    let ops = every.arg(flag(alloc, "ops"))?;
    let report = ops.arg(flag(alloc, "report"))?;
    report.arg(flag(alloc, "trace"))
}
