//! Branches that go on a block, and cases.

ghost use Rattle.std.specs.Prelude.{◌≡◌, Bool, if◌then◌else◌, Err, Some, None};
ghost use Rattle.ng_lex.specs.declared.markup.Markup.TheVariants as m;
ghost use Rattle.ng_nodes.specs.Gives.{Gives};
ghost use Rattle.ng_nodes.specs.Machine as spec;
ghost use Rattle.ng_nodes.specs.Waits.{if_of};
ghost use Rattle.ng_nodes.specs.declared.state.Waiting.TheVariants as wt;

use crate::halt::Halt;
use crate::state::{Opener, State, Waiting, put};
use crate::text::{all_blank, is_gap};
use ng_ast::{Branch, Expr, Place};
use ng_lex::{Letter, Shape};
use ng_values::NgText;
use sqlite_items::Items;
use std::alloc::Global;
use std::mem;

impl State {
    // Takes the `@if` that may go on, with its branches, where nothing but white space stands after it.
    fn take_if(&mut self) -> Option<(Place, Items<Branch>)>
        ensures taken { result ≡ if_of (spec.is_gap self.old.run) self.old.waiting }
        ensures left { self.new ≡ record self.old { waiting = wt.Nobody } }
    {
        let gap = is_gap(&self.run);
        match mem::replace(&mut self.waiting, Waiting::Nobody) {
            Waiting::If(block, before) => {
                if gap {
                    Some((block, before))
                } else {
                    drop(before);
                    None
                }
            }
            other => {
                drop(other);
                None
            }
        }
    }

    /// An `@else`, or with a test an `@else if`.
    #[tactic(auto, using(crate::proofs::Steps::branch_taken, crate::proofs::Steps::branch_refused))]
    pub fn branch(
        &mut self,
        alloc: Global,
        place: Place,
        test: Option<Expr>,
        name: Option<NgText>,
    ) -> Result<(), Halt>
        ensures { Gives (if spec.is_gap self.old.run then spec.branch_of self.old.waiting test name place self.old else Err spec.Syntax) result self.new }
    {
        match self.take_if() {
            Some((block, before)) => {
                let keep = self.keep;
                let made = self.made;
                let opener = Opener::If(block, before, place, test, name);
                Ok(self.inside(alloc, opener, keep, made)?)
            }
            None => {
                drop(test);
                drop(name);
                Err(Halt::Syntax(place))
            }
        }
    }

    /// An `@empty`.
    pub fn empty(&mut self, alloc: Global, place: Place) -> Result<(), Halt>
        ensures { Gives (if spec.is_gap self.old.run then spec.empty_of self.old.waiting place self.old else Err spec.Syntax) result self.new }
    {
        if !is_gap(&self.run) {
            return Err(Halt::Syntax(place));
        }
        match mem::replace(&mut self.waiting, Waiting::Nobody) {
            Waiting::For(block, head, rows) => {
                let opener = Opener::Empty(block, head, rows, place);
                let keep = self.keep;
                let made = self.made;
                self.inside(alloc, opener, keep, made)?;
                Ok(())
            }
            other => {
                drop(other);
                Err(Halt::Syntax(place))
            }
        }
    }

    // An `@else if` that passes a limit of its own.
    fn heavy_else_if(&self, place: Place) -> Result<(), Halt>
        ensures { Gives (if spec.is_gap self.now.run then spec.heavy_else_if self.now.waiting else Err spec.Syntax) result self.now }
    {
        if !is_gap(&self.run) {
            return Err(Halt::Syntax(place));
        }
        match &self.waiting {
            Waiting::If(_, _) => Err(Halt::Limit(place)),
            _ => Err(Halt::Syntax(place)),
        }
    }

    /// A part of this shape that passes a limit of its own, where a node may stand.
    #[tactic(auto, using(crate::proofs::Steps::heavy_limit))]
    pub fn heavy(&self, place: Place, shape: Shape) -> Result<(), Halt>
        ensures { (room : Bool) → Gives (spec.stands room (m.Heavy shape) place self.now) result self.now }
    {
        match shape {
            Shape::ElseIf => self.heavy_else_if(place),
            Shape::Case => Err(Halt::Syntax(place)),
            _ => Err(Halt::Limit(place)),
        }
    }

    /// Whether a `@switch` is open, outside of its cases.
    pub fn is_switch(&self) -> bool
        ensures { result ≡ spec.is_switch self.now.opener }
    {
        matches!(self.opener, Opener::Switch(_, _, _))
    }

    /// A case of a `@switch`, which without a value is a `@default`.
    pub fn case(&mut self, alloc: Global, place: Place, value: Option<Expr>) -> Result<(), Halt>
        ensures { Gives (spec.case_of self.old.opener value place self.old) result self.new }
    {
        match mem::replace(&mut self.opener, Opener::Root) {
            Opener::Switch(block, of, before) => {
                put(
                    &mut self.opener,
                    Opener::Case(block, of, before, place, value),
                );
                put(&mut self.nodes, Items::new(alloc));
                self.clear();
                Ok(())
            }
            other => {
                drop(other);
                drop(value);
                Err(Halt::Syntax(place))
            }
        }
    }

    /// Literal text in a `@switch`, outside of its cases.
    pub fn literal_between(&self, place: Place, letters: &[Letter]) -> Result<(), Halt>
        ensures { Gives (spec.between (m.Literal letters.now) place self.now) result self.now }
    {
        if all_blank(letters) {
            Ok(())
        } else {
            Err(Halt::Syntax(place))
        }
    }

    /// A part of this shape that passes a limit of its own, in a `@switch`, outside of its cases.
    #[tactic(auto, using(crate::proofs::Steps::heavy_between))]
    pub fn heavy_between(&self, place: Place, shape: Shape) -> Result<(), Halt>
        ensures { Gives (spec.between (m.Heavy shape) place self.now) result self.now }
    {
        match shape {
            Shape::Case => Err(Halt::Limit(place)),
            _ => Err(Halt::Syntax(place)),
        }
    }
}
