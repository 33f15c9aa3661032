//! Makes the nodes of a template of its parts, exactly by the grammar, within the limits on nesting and on the number of nodes.
#![tactic(auto)]

mod begins;
mod branches;
mod builder;
mod ends;
mod halt;
mod machine;
mod state;
mod text;

ghost use Rattle.std.specs.Prelude.{◌≡◌, ℕ, Bool, false, List, IfOk, IfErr};
ghost use Rattle.ng_ast.specs.Nodes.{count};
ghost use Rattle.ng_ast.specs.declared.TNode.{TNode};
ghost use Rattle.ng_nodes.specs.Grammar.{Nodes};
ghost use Rattle.ng_nodes.specs.Limits.{ReadsNodes};
ghost use Rattle.ng_nodes.specs.Reading.{OverParts, AreNoNodes, Halts, IsOrMemory};
ghost use Rattle.ng_nodes.specs.Texts.{Parts, IsRun, pieces, AreMaximal};

pub use builder::Builder;
pub use halt::Halt;
use ng_ast::TNode;
use ng_lex::Part;
use sqlite_items::Items;
use state::Stack;
use std::alloc::Global;

/// The nodes that the parts of a template are, all of them, in time linear in the parts.
///
/// `Syntax` comes only where the parts are no nodes, whatever parts of their shapes stand in the place of heavy ones. `Limit` comes
/// only where some front of the parts is begun and passes a limit: more than 32 elements and blocks in one another, more than
/// 4,096 nodes, or a heavy part where one of its shape may stand. The grammar is that of Angular's templates, as docs/LANGUAGE.md
/// has it.
#[tactic(auto, using(crate::proofs::Replies::read_reads, crate::proofs::Replies::read_refused, crate::proofs::Public::exactly_read))]
pub fn read_nodes(alloc: Global, parts: Vec<Part>) -> Result<Items<TNode>, Halt>
    ensures reads { IfOk result (λ ns. ReadsNodes parts.items ns × (OverParts parts.items → ⊥)) }
    ensures refused { IfErr result (Halts (AreNoNodes parts.items) (OverParts parts.items)) }
    ensures exact { (ns : List TNode) → ReadsNodes parts.items ns → (OverParts parts.items → ⊥) → IsOrMemory ns result }
{
    machine::read(alloc, Stack::from_vec(parts))
}

/// Parts are one list of nodes at most.
#[tactic(auto, using(crate::proofs::Public::one_reading))]
pub fn one_nodes()
    ensures { (ts : Parts) (a b : List TNode) → ReadsNodes ts a → ReadsNodes ts b → a ≡ b }
{}

/// The number that a reading has is that of its nodes, with those inside them, as `Template::node` counts them.
#[tactic(auto, using(crate::proofs::Counts::counts))]
pub fn nodes_are_counted()
    ensures { (keep : Bool) (ts : Parts) (ns : List TNode) (k : ℕ) → Nodes keep ts ns k → k ≡ count ns }
{}

/// The pieces of a text are as long as they can be, and none is empty.
#[tactic(auto, using(crate::proofs::Runs::run_maximal))]
pub fn pieces_are_maximal()
    ensures { (keep : Bool) (ts : Parts) → IsRun keep false ts → AreMaximal (pieces keep ts) }
{}
