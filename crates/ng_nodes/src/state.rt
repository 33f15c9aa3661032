//! What is begun and not ended.

ghost use Rattle.std.specs.Prelude.{◌≡◌, [], ◌∷◌, length, OnOk, MatchOption};

use ng_ast::{Branch, Expr, ForHead, Piece, Place, TAttr, TNode};
use ng_values::NgText;
use sqlite_items::Items;
use std::alloc::{AllocError, Global};
use std::marker::Model;
use std::mem;

/// What the nodes that come now stand in, with its place and what it has so far.
#[derive(Drop)]
pub enum Opener {
    /// The template itself.
    Root,
    /// An element.
    Tag(Place, NgText, Items<TAttr>),
    /// A branch of an `@if`: the block's place, the branches before this one, and its own place, test and name. An `@else` has no
    /// test.
    If(Place, Items<Branch>, Place, Option<Expr>, Option<NgText>),
    /// The rows of a `@for`.
    For(Place, ForHead),
    /// The `@empty` of a `@for`, after its rows, with its own place.
    Empty(Place, ForHead, Items<TNode>, Place),
    /// A `@switch`, outside of its cases, with those that are ended. No node stands here.
    Switch(Place, Expr, Items<Branch>),
    /// A case of a `@switch`, after those that are ended, with its own place and value. A `@default` has no value.
    Case(Place, Expr, Items<Branch>, Place, Option<Expr>),
}

/// A block that is ended, unless another branch of it comes.
#[derive(Drop)]
pub enum Waiting {
    Nobody,
    /// An `@if` without an `@else`.
    If(Place, Items<Branch>),
    /// A `@for` without an `@empty`.
    For(Place, ForHead, Items<TNode>),
}

/// A text that is begun: its place and its pieces, whether the last one is literal text, and whether all is white space.
#[derive(Drop)]
pub struct Run {
    pub place: Place,
    pub pieces: Items<Piece>,
    pub literal: bool,
    pub blank: bool,
}

/// What stands round an element or a block that is begun, whether white space is kept in it, and its nodes so far.
#[derive(Drop)]
pub struct Frame {
    pub opener: Opener,
    pub keep: bool,
    pub nodes: Items<TNode>,
}

/// A stack, which contracts see from its top on.
#[derive(Drop)]
pub struct Stack<T> {
    /// The top is the last of them.
    items: Vec<T>,
}

impl<T> Model for Stack<T> {
    ghost use Rattle.std.specs.Prelude.{List, reverse};
    ghost use Rattle.std.specs.Coded.{coded_list};

    ghost Value = { List T };

    ghost coded = { coded_list T.code };

    ghost view = { λ s. reverse s.items.items };
}

impl<T> Stack<T> {
    pub fn new(alloc: Global) -> Stack<T>
        ensures { result ≡ [] }
    {
        Stack {
            items: Vec::new(alloc),
        }
    }

    pub fn from_vec(mut items: Vec<T>) -> Stack<T>
        ensures { result ≡ items.items }
    {
        items.reverse();
        Stack { items }
    }

    pub fn len(&self) -> usize
        ensures { result ≡ length self.now }
    {
        self.items.len()
    }

    pub fn pop(&mut self) -> Option<T>
        ensures { MatchOption result ((self.old ≡ []) × (self.new ≡ [])) (λ x. self.old ≡ x ∷ self.new) }
    {
        self.items.pop()
    }
}

impl<T: Drop> Stack<T> {
    pub fn push(&mut self, item: T) -> Result<(), AllocError>
        ensures { OnOk result (self.new ≡ item ∷ self.old) }
    {
        self.items.push(item)?;
        Ok(())
    }
}

/// Puts a value in the place of another, which is let go.
pub fn put<T: Drop>(place: &mut T, value: T)
    ensures { place.new ≡ value }
{
    drop(mem::replace(place, value));
}

/// The parts that were read: the elements and blocks that are begun, from the inside out; what the nodes that come now stand in,
/// whether white space is kept there, and its nodes so far; the block that may go on; the text that is begun; and how many nodes
/// are begun.
#[derive(Drop)]
pub struct State {
    pub outer: Stack<Frame>,
    pub opener: Opener,
    pub keep: bool,
    pub nodes: Items<TNode>,
    pub waiting: Waiting,
    pub run: Option<Run>,
    pub made: usize,
}

impl State {
    ghost use Rattle.std.specs.Prelude.{None};
    ghost use Rattle.ng_nodes.specs.declared.state.Waiting.TheVariants as wt;

    /// No block may go on, and no text is begun.
    pub fn clear(&mut self)
        ensures { self.new ≡ record self.old { waiting = wt.Nobody; run = None } }
    {
        put(&mut self.waiting, Waiting::Nobody);
        put(&mut self.run, None);
    }
}
