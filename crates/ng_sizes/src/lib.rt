//! How large the nodes of a template are that the reader of parts gives: at most 4,096 nodes, in at most 32 levels of elements and
//! blocks. Laws alone, for the crates above; nothing here runs.
//!
//! The limits are those of `ng_nodes` (`specs/Limits.antt`), where they are said of the parts, one after another. The laws here say
//! them of the nodes, in the words in which the meaning of an application speaks of a template: `all_nodes`, and `in_order` down to
//! `nesting` levels.
#![tactic(auto)]

ghost use Rattle.std.specs.Prelude.{◌≡◌, ℕ, suc, ◌≤◌, List, length};
ghost use Rattle.ng_ast.specs.Nodes.{all_nodes};
ghost use Rattle.ng_ast.specs.declared.TNode.{TNode};
ghost use Rattle.ng_nodes.specs.Limits.{ReadsNodes};
ghost use Rattle.ng_nodes.specs.Reading.{OverParts};
ghost use Rattle.ng_nodes.specs.Texts.{Parts};
ghost use Rattle.ng_semantics.specs.Template.{in_order, nesting};
ghost use Rattle.ng_sizes.specs.Sizes.{IsShallow};

/// Parts that pass no limit are at most 4,096 nodes, with those inside them.
pub fn nodes_are_few()
    ensures { (ts : Parts) (ns : List TNode) → ReadsNodes ts ns → (OverParts ts → ⊥) → length (all_nodes ns) ≤ 4096 }
{}

/// The elements and blocks of parts that pass no limit, void elements among them, nest at most 32 levels.
pub fn nodes_are_shallow()
    ensures { (ts : Parts) (ns : List TNode) → ReadsNodes ts ns → (OverParts ts → ⊥) → IsShallow 32 ns }
{}

/// Of nodes whose elements and blocks nest at most so many levels, the nodes down to one level more are all nodes: inside of the
/// last element or block there may be texts and `@let`s yet.
#[tactic(auto, using(crate::proofs::Order::order_is))]
pub fn shallow_nodes_are_in_order()
    ensures { (levels : ℕ) (ns : List TNode) → IsShallow levels ns → in_order (suc levels) ns ≡ all_nodes ns }
{}

/// Of the nodes of parts that pass no limit `in_order`, down to `nesting` levels, leaves none out, and gives at most 4,096.
pub fn nodes_are_in_order()
    ensures whole { (ts : Parts) (ns : List TNode) → ReadsNodes ts ns → (OverParts ts → ⊥) → in_order nesting ns ≡ all_nodes ns }
    ensures few { (ts : Parts) (ns : List TNode) → ReadsNodes ts ns → (OverParts ts → ⊥) → length (in_order nesting ns) ≤ 4096 }
{}
