//! Texts, elements and blocks that begin.

ghost use Rattle.std.specs.Prelude.{◌≡◌, ◌+◌, ◌≤◌, [], ◌∷◌, ◌++◌, ◌||◌, length, nat_lt, if◌then◌else◌, Ok, Err, OnOk, Some, None, false};
ghost use Rattle.ng_ast.specs.declared.Piece.TheVariants as piece_of;
ghost use Rattle.ng_ast.specs.declared.TNode.TheVariants as node_of;
ghost use Rattle.ng_nodes.specs.Gives.{Gives};
ghost use Rattle.ng_nodes.specs.Machine as spec;
ghost use Rattle.ng_nodes.specs.Texts.{keeps};
ghost use Rattle.ng_nodes.specs.declared.state.Opener.TheVariants as op;
ghost use Rattle.ng_nodes.specs.declared.state.Waiting.TheVariants as wt;

use crate::halt::Halt;
use crate::state::{Frame, Opener, Run, State, Waiting};
use crate::text::{all_blank, is_after_literal, joined, keeps_in, piece};
use ng_ast::{Expr, ForHead, Piece, Place, TAttr, TNode};
use ng_lex::Letter;
use ng_values::NgText;
use sqlite_items::Items;
use std::alloc::{AllocError, Global};
use std::mem;

/// How many elements and blocks may stand in one another.
const MAX_DEPTH: usize = 32;

impl State {
    // Ends the block that may go on.
    #[tactic(auto, using(crate::proofs::Steps::none_shown))]
    fn end_waiting(&mut self) -> Result<(), AllocError>
        ensures ended { OnOk result (self.new ≡ record self.old { nodes = self.old.nodes ++ spec.shown self.old.waiting; waiting = wt.Nobody }) }
        ensures few { self.new.made ≡ self.old.made }
    {
        match mem::replace(&mut self.waiting, Waiting::Nobody) {
            Waiting::Nobody => Ok(()),
            Waiting::If(place, branches) => self.nodes.push(TNode::If(place, branches)),
            Waiting::For(place, head, rows) => {
                self.nodes.push(TNode::For(place, head, rows, None))
            }
        }
    }

    // Ends the text.
    #[tactic(auto, using(crate::proofs::Steps::none_shown))]
    fn end_run(&mut self) -> Result<(), AllocError>
        requires { self.old.made ≤ 4096 }
        ensures ended { OnOk result (self.new ≡ record self.old { nodes = self.old.nodes ++ spec.shown_run self.old.keep self.old.run; run = None; made = self.old.made + length (spec.shown_run self.old.keep self.old.run) }) }
        ensures few { self.new.made ≤ self.old.made + 1 }
    {
        match self.run.take() {
            None => Ok(()),
            Some(
                Run {
                    place,
                    pieces,
                    literal: _,
                    blank,
                },
            ) => {
                if blank && !self.keep {
                    return Ok(());
                }
                self.nodes.push(TNode::Text(place, pieces))?;
                self.made += 1;
                Ok(())
            }
        }
    }

    /// Ends the block that may go on and the text.
    #[tactic(auto, using(crate::proofs::Steps::settled_is))]
    pub fn settle(&mut self) -> Result<(), AllocError>
        requires { self.old.made ≤ 4096 }
        ensures settled { OnOk result (self.new ≡ spec.settle self.old) }
        ensures few { self.new.made ≤ self.old.made + 1 }
    {
        self.end_waiting()?;
        self.end_run()
    }

    // A text goes on.
    fn join(
        &mut self,
        alloc: Global,
        place: Place,
        piece: Piece,
        literal: bool,
        blank: bool,
    ) -> Result<(), AllocError>
        ensures { OnOk result (self.new ≡ record self.old { run = Some (spec.joined self.old.run place piece literal blank) }) }
    {
        let run = joined(alloc, self.run.take(), place, piece, literal, blank)?;
        self.run = Some(run);
        Ok(())
    }

    /// Literal text.
    pub fn literal(&mut self, alloc: Global, place: Place, letters: &[Letter]) -> Result<(), Halt>
        ensures { Gives (spec.literal letters.now place self.old) result self.new }
    {
        if is_after_literal(&self.run) {
            return Err(Halt::Syntax(place));
        }
        match piece(alloc, self.keep, letters)? {
            Some(text) => {
                let blank = all_blank(letters);
                self.join(alloc, place, Piece::Text(text), true, blank)?;
                Ok(())
            }
            None => Err(Halt::Syntax(place)),
        }
    }

    /// An interpolation.
    pub fn interpolation(&mut self, alloc: Global, place: Place, value: Expr) -> Result<(), Halt>
        ensures { Gives (Ok (record self.old { run = Some (spec.joined self.old.run place (piece_of.Value place value) false false) })) result self.new }
    {
        self.join(alloc, place, Piece::Value(place, value), false, false)?;
        Ok(())
    }

    /// A comment, which ends the text before it.
    pub fn comment(&mut self) -> Result<(), Halt>
        requires { self.old.made ≤ 4096 }
        ensures { Gives (Ok (spec.settle self.old)) result self.new }
    {
        self.settle()?;
        Ok(())
    }

    /// What stands in a new element, block or branch, of which so many nodes are begun.
    pub fn inside(
        &mut self,
        alloc: Global,
        begun: Opener,
        keep: bool,
        made: usize,
    ) -> Result<(), AllocError>
        ensures { OnOk result (self.new ≡ spec.inside begun keep made self.old) }
    {
        let opener = mem::replace(&mut self.opener, begun);
        let nodes = mem::replace(&mut self.nodes, Items::new(alloc));
        self.outer.push(Frame {
            opener,
            keep: self.keep,
            nodes,
        })?;
        self.keep = keep;
        self.clear();
        self.made = made;
        Ok(())
    }

    // Enters an element or a block that begins, where no text is begun.
    fn enter(&mut self, alloc: Global, opener: Opener, keep: bool, place: Place) -> Result<(), Halt>
        requires { self.old.made ≤ 4097 }
        ensures { Gives (spec.begun (nat_lt (length self.old.outer) 32) opener keep self.old) result self.new }
    {
        let deep = self.outer.len() >= MAX_DEPTH;
        let made = self.made + 1;
        self.inside(alloc, opener, keep, made)?;
        if deep {
            return Err(Halt::Limit(place));
        }
        Ok(())
    }

    // An element or a block begins, after the text before it.
    fn begin(&mut self, alloc: Global, opener: Opener, keep: bool, place: Place) -> Result<(), Halt>
        requires { self.old.made ≤ 4096 }
        ensures { Gives (spec.begun (nat_lt (length self.old.outer) 32) opener keep (spec.settle self.old)) result self.new }
    {
        match self.settle() {
            Ok(()) => self.enter(alloc, opener, keep, place),
            Err(_) => {
                drop(opener);
                Err(Halt::Memory)
            }
        }
    }

    /// The start tag of an element.
    pub fn start(
        &mut self,
        alloc: Global,
        place: Place,
        tag: NgText,
        attrs: Items<TAttr>,
    ) -> Result<(), Halt>
        requires { self.old.made ≤ 4096 }
        ensures { Gives (spec.begun (nat_lt (length self.old.outer) 32) (op.Tag place tag attrs) (self.old.keep || keeps tag) (spec.settle self.old)) result self.new }
    {
        let keep = keeps_in(self.keep, tag.as_str());
        self.begin(alloc, Opener::Tag(place, tag, attrs), keep, place)
    }

    /// An `@if`.
    pub fn begin_if(
        &mut self,
        alloc: Global,
        place: Place,
        test: Expr,
        name: Option<NgText>,
    ) -> Result<(), Halt>
        requires { self.old.made ≤ 4096 }
        ensures { Gives (spec.begun (nat_lt (length self.old.outer) 32) (op.If place [] place (Some test) name) self.old.keep (spec.settle self.old)) result self.new }
    {
        let keep = self.keep;
        let opener = Opener::If(place, Items::new(alloc), place, Some(test), name);
        self.begin(alloc, opener, keep, place)
    }

    /// A `@for`.
    pub fn begin_for(&mut self, alloc: Global, place: Place, head: ForHead) -> Result<(), Halt>
        requires { self.old.made ≤ 4096 }
        ensures { Gives (spec.begun (nat_lt (length self.old.outer) 32) (op.For place head) self.old.keep (spec.settle self.old)) result self.new }
    {
        let keep = self.keep;
        self.begin(alloc, Opener::For(place, head), keep, place)
    }

    /// A `@switch`.
    pub fn begin_switch(&mut self, alloc: Global, place: Place, value: Expr) -> Result<(), Halt>
        requires { self.old.made ≤ 4096 }
        ensures { Gives (spec.begun (nat_lt (length self.old.outer) 32) (op.Switch place value []) self.old.keep (spec.settle self.old)) result self.new }
    {
        let keep = self.keep;
        let opener = Opener::Switch(place, value, Items::new(alloc));
        self.begin(alloc, opener, keep, place)
    }

    // One more node, where no text is begun.
    fn append(&mut self, node: TNode) -> Result<(), AllocError>
        requires { self.old.made ≤ 4097 }
        ensures { OnOk result (self.new ≡ spec.added node self.old) }
    {
        self.nodes.push(node)?;
        self.clear();
        self.made += 1;
        Ok(())
    }

    // One more node, after the text before it.
    fn add(&mut self, node: TNode) -> Result<(), AllocError>
        requires { self.old.made ≤ 4096 }
        ensures { OnOk result (self.new ≡ spec.added node (spec.settle self.old)) }
    {
        match self.settle() {
            Ok(()) => self.append(node),
            Err(error) => {
                drop(node);
                Err(error)
            }
        }
    }

    /// A `@let`.
    pub fn declare(&mut self, place: Place, name: NgText, value: Expr) -> Result<(), Halt>
        requires { self.old.made ≤ 4096 }
        ensures { Gives (Ok (spec.added (node_of.Let place name value) (spec.settle self.old))) result self.new }
    {
        self.add(TNode::Let(place, name, value))?;
        Ok(())
    }

    /// An element without an end tag.
    pub fn single(
        &mut self,
        alloc: Global,
        place: Place,
        tag: NgText,
        attrs: Items<TAttr>,
    ) -> Result<(), Halt>
        requires { self.old.made ≤ 4096 }
        ensures { Gives (if nat_lt (length self.old.outer) 32 then Ok (spec.added (node_of.Element place tag attrs []) (spec.settle self.old)) else Err spec.Limit) result self.new }
    {
        if self.outer.len() >= MAX_DEPTH {
            return Err(Halt::Limit(place));
        }
        self.add(TNode::Element(place, tag, attrs, Items::new(alloc)))?;
        Ok(())
    }
}
