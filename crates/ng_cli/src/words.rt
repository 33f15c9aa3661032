ghost use Rattle.std.specs.Prelude.{◌≡◌, MatchResult, Some};
ghost use Rattle.ng_cli.specs.Steps.{texts, meant};
ghost use Rattle.ng_cli.specs.Words.{is_every_alone, task_of};
ghost use Rattle.ng_cli.specs.Ends.{NamesNone};

use ng_words::{Flags, Order, Refused, read_words};
use std::alloc::Global;

/// What a call has to do, with the names of its files.
pub(crate) enum Task<'a> {
    /// Run an application over events.
    Run(&'a str, &'a str),
    /// Check an application.
    Check(&'a str),
}

// Whether `--every` stands alone.
fn is_every_alone(flags: Flags) -> bool
    ensures { result ≡ is_every_alone flags }
{
    flags.every && !(flags.ops || flags.report || flags.trace)
}

// The task that the words give.
pub(crate) fn read_task<'a>(alloc: Global, words: &'a [String]) -> Result<Task<'a>, Refused>
    ensures { MatchResult result (λ task. task_of (texts words.entry.now) ≡ Some (meant task)) (NamesNone (texts words.entry.now)) }
{
    match read_words(alloc, words) {
        Ok(Order::Run(flags, app, events)) if is_every_alone(flags) => Ok(Task::Run(app, events)),
        Ok(Order::Check(app)) => Ok(Task::Check(app)),
        Ok(_) => Err(Refused::Words),
        Err(refused) => Err(refused),
    }
}
