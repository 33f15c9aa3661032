//! Makes the nodes of a template, given its parts one after another.

ghost use Rattle.std.specs.Prelude.{◌≤◌};

use crate::halt::Halt;
use crate::state::State;
use ng_ast::TNode;
use ng_lex::Part;
use sqlite_items::Items;
use std::alloc::Global;

/// The nodes of a template while its parts come, one after another. What was read is moved and never copied, so the time is linear
/// in all parts.
#[derive(Drop)]
pub struct Builder {
    alloc: Global,
    state: State,
    ghost few: { state.made ≤ 4096 },
}

#[tactic(auto, using(crate::proofs::Public::pushed, crate::proofs::Public::refused, crate::proofs::Public::finished, crate::proofs::Public::unfinished))]
impl Builder {
    ghost use Rattle.std.specs.Prelude.{◌≡◌, List, [], ◌∷◌, ◌++◌, IfOk, IfErr};
    ghost use Rattle.ng_ast.specs.declared.TNode.{TNode};
    ghost use Rattle.ng_nodes.specs.Texts.{Parts};
    ghost use Rattle.ng_nodes.specs.Limits.{ReadsNodes};
    ghost use Rattle.ng_nodes.specs.Reading.{HasRead, OverParts, CannotStand, Halts};

    /// A builder that has read no part.
    #[tactic(auto, unfolding(crate::specs::Machine::after))]
    pub fn new(alloc: Global) -> Builder
        ensures { HasRead [] result }
    {
        Builder {
            alloc,
            state: State::new(alloc),
        }
    }

    /// Reads one more part.
    ///
    /// `Syntax` comes only where the part can't stand there, whatever follows it; a heavy part (one in which an expression passes a
    /// limit) can't where no part of its shape can. `Limit` comes only where some front of the parts is begun and passes a limit:
    /// more than 32 elements and blocks in one another, more than 4,096 nodes, or a heavy part where one of its shape may stand. A
    /// `@switch` and its case are one level, and an element without an end tag is one too.
    pub fn push(self, part: Part) -> Result<Builder, Halt>
        ensures read { IfOk result (λ next. (front : Parts) → HasRead front self → HasRead (front ++ part ∷ []) next) }
        ensures refused { IfErr result (λ e. (front : Parts) → HasRead front self → Halts (CannotStand front part) ((more : Parts) → OverParts (front ++ part ∷ more)) e) }
    {
        let Builder { alloc, mut state } = self;
        match state.step(alloc, part) {
            Ok(()) => Ok(Builder { alloc, state }),
            Err(halt) => {
                drop(state);
                Err(halt)
            }
        }
    }

    /// The nodes of all parts.
    ///
    /// `Syntax` comes only where an element or a block has no end, `Limit` only as at `push`.
    pub fn finish(self) -> Result<Items<TNode>, Halt>
        ensures reads { IfOk result (λ ns. (front : Parts) → HasRead front self → ReadsNodes front ns × (OverParts front → ⊥)) }
        ensures refused { IfErr result (λ e. (front : Parts) → HasRead front self → Halts ((ns : List TNode) → ReadsNodes front ns → ⊥) (OverParts front) e) }
    {
        let Builder { alloc, state } = self;
        state.finish(alloc)
    }
}
