//! Takes one part after another.

ghost use Rattle.std.specs.Prelude.{◌≡◌, ◌≤◌, length, nat_lt, OnOk};
ghost use Rattle.ng_nodes.specs.Gives.{Gives, Answers};
ghost use Rattle.ng_nodes.specs.Machine as spec;

use crate::halt::Halt;
use crate::state::{Opener, Stack, State, Waiting};
use ng_ast::{Place, TNode};
use ng_lex::{Markup, Part};
use sqlite_items::Items;
use std::alloc::Global;

/// How many nodes a template may have.
const MAX_NODES: usize = 4096;

impl State {
    /// The state before all parts.
    pub fn new(alloc: Global) -> State
        ensures { result ≡ spec.begin }
    {
        State {
            outer: Stack::new(alloc),
            opener: Opener::Root,
            keep: false,
            nodes: Items::new(alloc),
            waiting: Waiting::Nobody,
            run: None,
            made: 0,
        }
    }

    // A part where a node may stand.
    fn stand(&mut self, alloc: Global, markup: Markup, place: Place) -> Result<(), Halt>
        requires { self.old.made ≤ 4096 }
        ensures { Gives (spec.stands (nat_lt (length self.old.outer) 32) markup place self.old) result self.new }
    {
        match markup {
            Markup::Literal(letters) => self.literal(alloc, place, letters.as_slice()),
            Markup::Interpolation(value) => self.interpolation(alloc, place, value),
            Markup::Comment => self.comment(),
            Markup::Single(tag, attrs) => self.single(alloc, place, tag, attrs),
            Markup::Start(tag, attrs) => self.start(alloc, place, tag, attrs),
            Markup::End(tag) => self.end_tag(alloc, place, tag.as_str()),
            Markup::If(test, name) => self.begin_if(alloc, place, test, name),
            Markup::ElseIf(test, name) => self.branch(alloc, place, Some(test), name),
            Markup::Else => self.branch(alloc, place, None, None),
            Markup::For(head) => self.begin_for(alloc, place, head),
            Markup::Empty => self.empty(alloc, place),
            Markup::Switch(value) => self.begin_switch(alloc, place, value),
            Markup::Let(name, value) => self.declare(place, name, value),
            Markup::Close => self.end_block(alloc, place),
            Markup::Heavy(shape) => self.heavy(place, shape),
            Markup::Case(value) => {
                drop(value);
                Err(Halt::Syntax(place))
            }
            Markup::Default => Err(Halt::Syntax(place)),
        }
    }

    // A part in a `@switch`, outside of its cases.
    #[tactic(auto, using(crate::proofs::Steps::not_between))]
    fn stand_between(&mut self, alloc: Global, markup: Markup, place: Place) -> Result<(), Halt>
        ensures { Gives (spec.between markup place self.old) result self.new }
    {
        match markup {
            Markup::Literal(letters) => self.literal_between(place, letters.as_slice()),
            Markup::Comment => Ok(()),
            Markup::Case(value) => self.case(alloc, place, Some(value)),
            Markup::Default => self.case(alloc, place, None),
            Markup::Close => self.end_switch(place),
            Markup::Heavy(shape) => self.heavy_between(place, shape),
            other => {
                drop(other);
                Err(Halt::Syntax(place))
            }
        }
    }

    // One more part.
    fn arrive(&mut self, alloc: Global, markup: Markup, place: Place) -> Result<(), Halt>
        requires { self.old.made ≤ 4096 }
        ensures { Gives (spec.arrive (nat_lt (length self.old.outer) 32) markup place self.old) result self.new }
    {
        if self.is_switch() {
            self.stand_between(alloc, markup, place)
        } else {
            self.stand(alloc, markup, place)
        }
    }

    /// Takes one more part.
    #[tactic(auto, using(crate::proofs::Steps::checked_full, crate::proofs::Steps::checked_few), unfolding(crate::specs::Machine::step))]
    pub fn step(&mut self, alloc: Global, part: Part) -> Result<(), Halt>
        requires { self.old.made ≤ 4096 }
        ensures gives { Gives (spec.step 32 4096 self.old part) result self.new }
        ensures few { OnOk result (self.new.made ≤ 4096) }
    {
        let Part { place, markup } = part;
        self.arrive(alloc, markup, place)?;
        if self.made > MAX_NODES {
            return Err(Halt::Limit(place));
        }
        Ok(())
    }

    // Where the element or the block begins that is open.
    fn place(&self) -> Place {
        match &self.opener {
            Opener::Root => Place {
                line: 1,
                column: 1,
                byte: 0,
            },
            Opener::Tag(place, _, _)
            | Opener::If(_, _, place, _, _)
            | Opener::For(place, _)
            | Opener::Empty(_, _, _, place)
            | Opener::Switch(place, _, _)
            | Opener::Case(_, _, _, place, _) => *place,
        }
    }

    /// The nodes, where the parts end.
    #[tactic(auto, using(crate::proofs::Steps::closed_open, crate::proofs::Steps::closed_full, crate::proofs::Steps::closed_whole), unfolding(crate::specs::Machine::finish))]
    pub fn finish(mut self, alloc: Global) -> Result<Items<TNode>, Halt>
        requires { self.made ≤ 4096 }
        ensures { Answers (spec.finish 4096 self) result }
    {
        let place = self.place();
        self.settle()?;
        if self.outer.len() > 0 {
            return Err(Halt::Syntax(place));
        }
        if self.made > MAX_NODES {
            return Err(Halt::Limit(place));
        }
        Ok(self.take_nodes(alloc))
    }
}

/// The nodes of all parts, the first of them on top.
#[tactic(auto, using(crate::proofs::Steps::read_more, crate::proofs::Steps::read_stop, crate::proofs::Steps::read_end))]
pub fn read(alloc: Global, mut parts: Stack<Part>) -> Result<Items<TNode>, Halt>
    ensures { Answers (spec.read 32 4096 spec.begin parts) result }
{
    let mut state = State::new(alloc);
    while let Some(part) = parts.pop() {
        if let Err(halt) = state.step(alloc, part) {
            drop(state);
            drop(parts);
            return Err(halt);
        }
    }
    drop(parts);
    state.finish(alloc)
}
