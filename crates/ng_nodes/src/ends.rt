//! The ends of elements, blocks and branches.

ghost use Rattle.std.specs.Prelude.{◌≡◌, ◌≤◌, ◌∷◌, ◌++◌, [], OnOk, IfOk, None, Ok};
ghost use Rattle.ng_nodes.specs.Gives.{Gives};
ghost use Rattle.ng_nodes.specs.Grammar.{branch};
ghost use Rattle.ng_nodes.specs.Machine as spec;
ghost use Rattle.ng_nodes.specs.Waits.{is_tag};
ghost use Rattle.ng_nodes.specs.declared.state.Opener.TheVariants as op;
ghost use Rattle.ng_nodes.specs.declared.state.Waiting.TheVariants as wt;

use crate::halt::Halt;
use crate::state::{Frame, Opener, State, Waiting, put};
use ng_ast::{Branch, Expr, Place, TNode};
use ng_values::NgText;
use sqlite_items::Items;
use std::alloc::{AllocError, Global};
use std::mem;

impl State {
    // The frame goes on with a block that may have further branches.
    fn back_to(&mut self, frame: Frame, waiting: Waiting)
        ensures { self.new ≡ spec.back_to frame self.old.outer waiting self.old.made }
    {
        let Frame {
            opener,
            keep,
            nodes,
        } = frame;
        put(&mut self.opener, opener);
        self.keep = keep;
        put(&mut self.nodes, nodes);
        put(&mut self.waiting, waiting);
        put(&mut self.run, None);
    }

    // A branch ends, after which its block may go on.
    #[tactic(auto, using(crate::proofs::Steps::to_ended, crate::proofs::Steps::to_unended))]
    fn end_to(&mut self, waiting: Waiting, place: Place) -> Result<(), Halt>
        ensures { Gives (spec.ended_to self.old.outer waiting self.old.made) result self.new }
    {
        match self.outer.pop() {
            Some(frame) => {
                self.back_to(frame, waiting);
                Ok(())
            }
            None => {
                drop(waiting);
                Err(Halt::Syntax(place))
            }
        }
    }

    // An element or a block ends, as a node of the frame around it.
    #[tactic(auto, using(crate::proofs::Steps::node_after))]
    fn end_node(&mut self, node: TNode, place: Place) -> Result<(), Halt>
        ensures { Gives (spec.ended_node self.old.outer node self.old.made) result self.new }
    {
        let ended = self.end_to(Waiting::Nobody, place);
        self.nodes.push(node)?;
        ended
    }

    // A branch of an `@if` ends.
    #[tactic(auto, using(crate::proofs::Steps::branch_last, crate::proofs::Steps::branch_not_last))]
    fn end_branch(
        &mut self,
        block: Place,
        before: Items<Branch>,
        branch: Branch,
        place: Place,
    ) -> Result<(), Halt>
        ensures { Gives (spec.ended_branch branch.test self.old.outer block (before ++ branch ∷ []) self.old.made) result self.new }
    {
        let last = branch.test.is_none();
        let branches = pushed(before, branch)?;
        if last {
            self.end_node(TNode::If(block, branches), place)
        } else {
            self.end_to(Waiting::If(block, branches), place)
        }
    }

    /// The nodes so far, which leave the state.
    pub fn take_nodes(&mut self, alloc: Global) -> Items<TNode>
        ensures taken { result ≡ self.old.nodes }
        ensures left { self.new ≡ record self.old { nodes = [] } }
    {
        mem::replace(&mut self.nodes, Items::new(alloc))
    }

    // Whether the nodes that come now stand in an element of this tag, and in no block inside it.
    fn is_in(&self, tag: &str) -> bool
        ensures { result ≡ is_tag tag.now self.now.opener }
    {
        match &self.opener {
            Opener::Tag(_, mark, _) => mark.as_str() == tag,
            _ => false,
        }
    }

    // An element ends, whose end tag this is.
    #[tactic(auto, using(crate::proofs::Steps::tag_open, crate::proofs::Steps::tag_other))]
    fn end_element(&mut self, alloc: Global, place: Place, tag: &str) -> Result<(), Halt>
        ensures { Gives (spec.end_tag tag.now self.old.outer self.old.opener self.old.nodes self.old.made) result self.new }
    {
        if !self.is_in(tag) {
            return Err(Halt::Syntax(place));
        }
        match mem::replace(&mut self.opener, Opener::Root) {
            Opener::Tag(start, mark, attrs) => {
                let nodes = self.take_nodes(alloc);
                self.end_node(TNode::Element(start, mark, attrs, nodes), place)
            }
            other => {
                drop(other);
                Err(Halt::Syntax(place))
            }
        }
    }

    /// An end tag.
    pub fn end_tag(&mut self, alloc: Global, place: Place, tag: &str) -> Result<(), Halt>
        requires { self.old.made ≤ 4096 }
        ensures { let st = spec.settle self.old in Gives (spec.end_tag tag.now st.outer st.opener st.nodes st.made) result self.new }
    {
        self.settle()?;
        self.end_element(alloc, place, tag)
    }

    // A case of a `@switch` ends.
    fn end_case(
        &mut self,
        block: Place,
        of: Expr,
        before: Items<Branch>,
        case: Branch,
    ) -> Result<(), Halt>
        ensures { Gives (Ok (spec.at self.old.outer (op.Switch block of (before ++ case ∷ [])) self.old.keep self.old.nodes wt.Nobody None self.old.made)) result self.new }
    {
        let cases = pushed(before, case)?;
        put(&mut self.opener, Opener::Switch(block, of, cases));
        self.clear();
        Ok(())
    }

    // A branch or a case ends.
    fn end_inside(&mut self, alloc: Global, place: Place) -> Result<(), Halt>
        ensures { Gives (spec.end_block self.old.outer self.old.opener self.old.keep self.old.nodes self.old.made) result self.new }
    {
        let nodes = self.take_nodes(alloc);
        match mem::replace(&mut self.opener, Opener::Root) {
            Opener::If(block, before, start, test, name) => {
                self.end_branch(block, before, branch_of(start, test, name, nodes), place)
            }
            Opener::For(block, head) => self.end_to(Waiting::For(block, head, nodes), place),
            Opener::Empty(block, head, rows, start) => {
                let empty = branch_of(start, None, None, nodes);
                self.end_node(TNode::For(block, head, rows, Some(empty)), place)
            }
            Opener::Case(block, of, before, start, value) => {
                self.end_case(block, of, before, branch_of(start, value, None, nodes))
            }
            other => {
                drop(other);
                drop(nodes);
                Err(Halt::Syntax(place))
            }
        }
    }

    /// The `}` of a branch or of a case.
    pub fn end_block(&mut self, alloc: Global, place: Place) -> Result<(), Halt>
        requires { self.old.made ≤ 4096 }
        ensures { let st = spec.settle self.old in Gives (spec.end_block st.outer st.opener st.keep st.nodes st.made) result self.new }
    {
        self.settle()?;
        self.end_inside(alloc, place)
    }

    /// The `}` of a `@switch`.
    pub fn end_switch(&mut self, place: Place) -> Result<(), Halt>
        ensures { Gives (spec.end_switch self.old.outer self.old.opener self.old.made) result self.new }
    {
        match mem::replace(&mut self.opener, Opener::Root) {
            Opener::Switch(block, of, cases) => {
                self.end_node(TNode::Switch(block, of, cases), place)
            }
            other => {
                drop(other);
                Err(Halt::Syntax(place))
            }
        }
    }
}

// The branches with one more.
fn pushed(before: Items<Branch>, branch: Branch) -> Result<Items<Branch>, AllocError>
    ensures { IfOk result (λ branches. branches ≡ before ++ branch ∷ []) }
{
    let mut branches = before;
    branches.push(branch)?;
    Ok(branches)
}

fn branch_of(place: Place, test: Option<Expr>, name: Option<NgText>, nodes: Items<TNode>) -> Branch
    ensures { result ≡ branch place test name nodes }
{
    Branch {
        place,
        test,
        name,
        nodes,
    }
}
