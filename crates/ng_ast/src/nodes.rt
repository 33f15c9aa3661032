ghost use Rattle.std.specs.Prelude.{◌≡◌, ◌<◌, ◌↔◌, IsSome};
ghost use Rattle.std.specs.List.{slice_get, flat_map};
ghost use Rattle.std.specs.Option.{option_copied};
ghost use Rattle.ng_ast.specs.Inner.{optional_nodes};
ghost use Rattle.ng_ast.specs.Nodes.{Finds, all_nodes, branch_nodes, count, node_and_inner};

use crate::{Branch, TNode, Template};

#[tactic(auto, using(crate::specs::NodesLaws::node_laws))]
impl Template {
    /// The node with this number. Nodes are numbered from 0 in the order of their first bytes:
    /// elements (`ng-content`, `ng-container` and `ng-template` among them), texts, blocks and `@let`
    /// have a number, branches have none. None exactly where the template has no such node.
    ///
    /// It takes no memory. The cost is the number of nodes up to that one.
    pub fn node(&self, n: u32) -> Option<&TNode>
        ensures exact { option_copied result ≡ slice_get (all_nodes self.now.nodes) n }
        ensures some { IsSome result ↔ (n < count self.now.nodes) }
    {
        match find_in_nodes(self.nodes.as_slice(), n) {
            Ok(node) => Some(node),
            Err(_) => None,
        }
    }
}

// The node with number n among this one and those inside it, or how far the number is past them.
#[cycle(find)]
#[tactic(auto, using(crate::specs::NodesLaws::node_laws))]
fn find_in_node(node: &TNode, n: u32) -> Result<&TNode, u32>
    ensures { Finds (node_and_inner node.now) n result }
{
    if n == 0 {
        return Ok(node);
    }
    match node {
        TNode::Element(_, _, _, nodes) => find_in_nodes(nodes.as_slice(), n - 1),
        TNode::Text(_, _) => Err(n - 1),
        TNode::If(_, branches) => find_in_branches(branches.as_slice(), n - 1),
        TNode::For(_, _, nodes, empty) => match find_in_nodes(nodes.as_slice(), n - 1) {
            Ok(found) => Ok(found),
            Err(past) => find_in_empty(empty, past),
        },
        TNode::Switch(_, _, branches) => find_in_branches(branches.as_slice(), n - 1),
        TNode::Let(_, _, _) => Err(n - 1),
    }
}

#[cycle(find)]
fn find_in_nodes(nodes: &[TNode], n: u32) -> Result<&TNode, u32>
    ensures { Finds (all_nodes nodes.now) n result }
{
    let mut left = n;
    for node in nodes {
        match find_in_node(node, left) {
            Ok(found) => return Ok(found),
            Err(past) => left = past,
        }
    }
    Err(left)
}

#[cycle(find)]
fn find_in_branches(branches: &[Branch], n: u32) -> Result<&TNode, u32>
    ensures { Finds (flat_map branch_nodes branches.now) n result }
{
    let mut left = n;
    for branch in branches {
        match find_in_nodes(branch.nodes.as_slice(), left) {
            Ok(found) => return Ok(found),
            Err(past) => left = past,
        }
    }
    Err(left)
}

#[cycle(find)]
fn find_in_empty(empty: &Option<Branch>, n: u32) -> Result<&TNode, u32>
    ensures { Finds (all_nodes (optional_nodes empty.now)) n result }
{
    match empty {
        None => Err(n),
        Some(branch) => find_in_nodes(branch.nodes.as_slice(), n),
    }
}
