//! The nodes of a template as a flat list.

ghost use Rattle.std.specs.Prelude.{◌≡◌, [], ◌∷◌, ◌++◌, OnOk, IfOk};
ghost use Rattle.std.specs.List.{flat_map};
ghost use Rattle.ng_ast.specs.Inner.{optional_nodes};
ghost use Rattle.ng_ast.specs.Nodes.{all_nodes, branch_nodes, node_and_inner};
ghost use Rattle.ng_parts.specs.Flat.{pointed};

use ng_ast::{Branch, TNode};
use std::alloc::{AllocError, Global};

fn push_one<'a>(node: &'a TNode, found: &mut Vec<&'a TNode>) -> Result<(), AllocError>
    ensures { OnOk result (pointed found.new.items ≡ pointed found.old.items ++ node.now ∷ []) }
{
    found.push(node)?;
    Ok(())
}

#[tactic(auto, using(crate::proofs::NodeLaws::node_laws))]
#[cycle(nodes)]
fn push_node<'a>(node: &'a TNode, found: &mut Vec<&'a TNode>) -> Result<(), AllocError>
    ensures { OnOk result (pointed found.new.items ≡ pointed found.old.items ++ node_and_inner node.now) }
{
    push_one(node, found)?;
    match node {
        TNode::Element(_, _, _, nodes) => {
            push_nodes(nodes.as_slice(), found)?;
            Ok(())
        }
        TNode::Text(_, _) => Ok(()),
        TNode::If(_, branches) => {
            push_branches(branches.as_slice(), found)?;
            Ok(())
        }
        TNode::For(_, _, nodes, empty) => {
            push_nodes(nodes.as_slice(), found)?;
            push_empty(empty, found)?;
            Ok(())
        }
        TNode::Switch(_, _, branches) => {
            push_branches(branches.as_slice(), found)?;
            Ok(())
        }
        TNode::Let(_, _, _) => Ok(()),
    }
}

#[cycle(nodes)]
fn push_nodes<'a>(nodes: &'a [TNode], found: &mut Vec<&'a TNode>) -> Result<(), AllocError>
    ensures { OnOk result (pointed found.new.items ≡ pointed found.old.items ++ all_nodes nodes.now) }
{
    for node in nodes {
        push_node(node, found)?;
    }
    Ok(())
}

#[cycle(nodes)]
fn push_branches<'a>(branches: &'a [Branch], found: &mut Vec<&'a TNode>) -> Result<(), AllocError>
    ensures { OnOk result (pointed found.new.items ≡ pointed found.old.items ++ flat_map branch_nodes branches.now) }
{
    for branch in branches {
        push_nodes(branch.nodes.as_slice(), found)?;
    }
    Ok(())
}

#[cycle(nodes)]
fn push_empty<'a>(empty: &'a Option<Branch>, found: &mut Vec<&'a TNode>) -> Result<(), AllocError>
    ensures { OnOk result (pointed found.new.items ≡ pointed found.old.items ++ all_nodes (optional_nodes empty.now)) }
{
    match empty {
        None => Ok(()),
        Some(branch) => {
            push_nodes(branch.nodes.as_slice(), found)?;
            Ok(())
        }
    }
}

/// `nodes` and all nodes inside them, in the order in which a template numbers its nodes: a node before those inside it, and the rows of
/// a `@for` before its `@empty`. The only error is want of memory.
///
/// The nodes are lent and not copied: the time and the memory are linear in their number.
pub fn nodes_of(alloc: Global, nodes: &[TNode]) -> Result<Vec<&TNode>, AllocError>
    ensures { IfOk result (λ found. pointed found.items ≡ all_nodes nodes.now) }
{
    let mut found = Vec::new(alloc);
    push_nodes(nodes, &mut found)?;
    Ok(found)
}

/// All nodes inside a `@for` whose rows are `nodes`: those of its rows and then those of its `@empty`, in the order of `nodes_of` and at its
/// cost. The only error is want of memory.
pub fn repeated_nodes<'a>(
    alloc: Global,
    nodes: &'a [TNode],
    empty: &'a Option<Branch>,
) -> Result<Vec<&'a TNode>, AllocError>
    ensures { IfOk result (λ found. pointed found.items ≡ all_nodes nodes.now ++ all_nodes (optional_nodes empty.now)) }
{
    let mut found = Vec::new(alloc);
    push_nodes(nodes, &mut found)?;
    push_empty(empty, &mut found)?;
    Ok(found)
}
