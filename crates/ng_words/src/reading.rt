//! Words, read.

ghost use Rattle.std.specs.Prelude.{◌≡◌, MatchResult, Some, None, map};
ghost use Rattle.ng_words.specs.Orders.{asked, meant};
ghost use Rattle.ng_words.specs.Texts.{texts, IsRefusedOrMemory};

use crate::command::command;
use crate::given::order;
use crate::order::Order;
use clap::error::ErrorKind;
use std::alloc::{AllocError, Global};

/// Why there is no order.
#[derive(Clone, Copy, Debug, PartialEq, Eq)]
pub enum Refused {
    /// The words ask for nothing that is there.
    Words,
    /// Memory ran out.
    Memory,
}

/// What the words ask for, which don't begin with the program's name. They are refused exactly where `clap` refuses them, a
/// request for help among it, or the table of orders has no row for them.
pub fn read_words<'a>(alloc: Global, words: &'a [String]) -> Result<Order<'a>, Refused>
    ensures { MatchResult result (λ o. asked (texts words.entry.now) ≡ Some (meant o)) (IsRefusedOrMemory (texts words.entry.now)) }
{
    let Ok(command) = command(alloc) else {
        return Err(Refused::Memory);
    };
    match command.try_get_matches_from(words) {
        Ok(matches) => order(&matches).ok_or(Refused::Words),
        Err(error) => match error.kind() {
            ErrorKind::OutOfMemory => Err(Refused::Memory),
            _ => Err(Refused::Words),
        },
    }
}
