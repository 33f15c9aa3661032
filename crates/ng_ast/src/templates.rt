ghost use Rattle.std.specs.Prelude.{◌≡◌, IfOk};

use crate::expressions::copy_test;
use crate::parts::{both, copy_name, copy_parts, push};
use crate::{Branch, ForHead, TNode, Template};
use sqlite_items::Items;
use std::alloc::{AllocError, Global};

impl Template {
    /// An equal template. Its own lists and boxes are made anew, and texts and values are shared, so
    /// the cost is the number of its parts.
    pub fn copy(&self, alloc: Global) -> Result<Template, AllocError>
        ensures { IfOk result (λ copy. copy ≡ self.now) }
    {
        let nodes = copy_nodes(alloc, self.nodes.as_slice())?;
        Ok(Template {
            place: self.place,
            nodes,
        })
    }
}

impl ForHead {
    fn copy(&self, alloc: Global) -> Result<ForHead, AllocError>
        ensures { IfOk result (λ copy. copy ≡ self.now) }
    {
        let rows = both(self.row.copy(), self.list.copy(alloc));
        let track = copy_test(alloc, &self.track);
        let more = both(track, copy_parts(alloc, &self.vars));
        let ((row, list), (track, vars)) = both(rows, more)?;
        Ok(ForHead {
            row,
            list,
            track,
            vars,
        })
    }
}

impl TNode {
    #[cycle(copy_template)]
    fn copy(&self, alloc: Global) -> Result<TNode, AllocError>
        ensures { IfOk result (λ copy. copy ≡ self.now) }
    {
        match self {
            TNode::Element(place, tag, attrs, nodes) => {
                let attrs = copy_parts(alloc, attrs);
                let inside = both(attrs, copy_nodes(alloc, nodes.as_slice()));
                let (tag, (attrs, nodes)) = both(tag.copy(), inside)?;
                Ok(TNode::Element(*place, tag, attrs, nodes))
            }
            TNode::Text(place, pieces) => Ok(TNode::Text(*place, copy_parts(alloc, pieces)?)),
            TNode::If(place, branches) => {
                let branches = copy_branches(alloc, branches.as_slice())?;
                Ok(TNode::If(*place, branches))
            }
            TNode::For(place, head, nodes, empty) => {
                let nodes = copy_nodes(alloc, nodes.as_slice());
                let inside = both(nodes, copy_empty(alloc, empty));
                let (head, (nodes, empty)) = both(head.copy(alloc), inside)?;
                Ok(TNode::For(*place, head, nodes, empty))
            }
            TNode::Switch(place, value, branches) => {
                let branches = copy_branches(alloc, branches.as_slice());
                let (value, branches) = both(value.copy(alloc), branches)?;
                Ok(TNode::Switch(*place, value, branches))
            }
            TNode::Let(place, name, value) => {
                let (name, value) = both(name.copy(), value.copy(alloc))?;
                Ok(TNode::Let(*place, name, value))
            }
        }
    }
}

impl Branch {
    #[cycle(copy_template)]
    fn copy(&self, alloc: Global) -> Result<Branch, AllocError>
        ensures { IfOk result (λ copy. copy ≡ self.now) }
    {
        let head = both(copy_test(alloc, &self.test), copy_name(&self.name));
        let ((test, name), nodes) = both(head, copy_nodes(alloc, self.nodes.as_slice()))?;
        Ok(Branch {
            place: self.place,
            test,
            name,
            nodes,
        })
    }
}

#[cycle(copy_template)]
fn copy_nodes(alloc: Global, nodes: &[TNode]) -> Result<Items<TNode>, AllocError>
    ensures { IfOk result (λ copy. copy ≡ nodes.now) }
{
    let mut copies = Vec::with_capacity(alloc, nodes.len())?;
    for node in nodes {
        push(&mut copies, node.copy(alloc)?)?;
    }
    Ok(Items::from_vec(copies))
}

#[cycle(copy_template)]
fn copy_branches(alloc: Global, branches: &[Branch]) -> Result<Items<Branch>, AllocError>
    ensures { IfOk result (λ copy. copy ≡ branches.now) }
{
    let mut copies = Vec::with_capacity(alloc, branches.len())?;
    for branch in branches {
        push(&mut copies, branch.copy(alloc)?)?;
    }
    Ok(Items::from_vec(copies))
}

#[cycle(copy_template)]
fn copy_empty(alloc: Global, empty: &Option<Branch>) -> Result<Option<Branch>, AllocError>
    ensures { IfOk result (λ copy. copy ≡ empty.now) }
{
    match empty {
        None => Ok(None),
        Some(branch) => Ok(Some(branch.copy(alloc)?)),
    }
}
