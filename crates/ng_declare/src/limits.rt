//! Limits on how many members and declarations there may be.

ghost use Rattle.std.specs.Prelude.{◌≡◌, [], ◌∷◌, ◌++◌, ◌<◌, ◌^◌, true, OnOk, IfErr};
ghost use Rattle.ng_declare.specs.Weights.{Fits};
ghost use Rattle.ng_declare.specs.Counts as spec;

use crate::entries::Entry;
use crate::halt::Halt;
use ng_ast::Place;
use sqlite_items::Items;

/// The members that a declaration may have, and the declarations of a kind that a file may have.
pub const MOST: usize = 256;

/// Adds an item where a limit allows it.
pub fn push_within<T: Drop>(
    list: &mut Items<T>,
    item: T,
    fits: bool,
    place: Place,
) -> Result<(), Halt>
    ensures pushed { OnOk result (list.new ≡ list.old ++ item ∷ []) }
    ensures fits { OnOk result (fits ≡ true) }
    ensures refused { IfErr result (Fits fits) }
{
    if !fits {
        return Err(Halt::Limit(place));
    }
    list.push(item)?;
    Ok(())
}

/// How many declarations there are of each kind that has a limit.
#[derive(Clone, Copy)]
pub struct Counts {
    pub components: usize,
    pub services: usize,
    pub pipes: usize,
    pub environments: usize,
}

impl Counts {
    pub fn none() -> Counts
        ensures { result ≡ spec.counted [] }
    {
        Counts {
            components: 0,
            services: 0,
            pipes: 0,
            environments: 0,
        }
    }

    /// The counts with a further declaration.
    pub fn with(self, entry: &Entry) -> Counts
        requires { spec.IsSmall self }
        ensures { result ≡ spec.with_entry self entry.now }
    {
        match entry {
            Entry::Component(_) => Counts {
                components: self.components + 1,
                ..self
            },
            Entry::Service(_) => Counts {
                services: self.services + 1,
                ..self
            },
            Entry::Pipe(_) => Counts {
                pipes: self.pipes + 1,
                ..self
            },
            Entry::Environment(_) => Counts {
                environments: self.environments + 1,
                ..self
            },
            Entry::Token(..) | Entry::Bootstrap(..) => self,
        }
    }

    pub fn are_few(&self) -> bool
        ensures { result ≡ spec.are_few self.now }
    {
        self.components <= MOST
            && self.services <= MOST
            && self.pipes <= MOST
            && self.environments <= MOST
    }
}
