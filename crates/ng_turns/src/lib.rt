//! What a run is given and what comes of it: events, what came of each, what a pass does to the nodes of
//! the page, and where it met a fault.
#![tactic(auto)]

use ng_ast::Place;
use ng_tree::Path;
use ng_values::{Fault, NgText, Value};
use sqlite_items::Items;

/// The arguments of a call, in order.
pub type Arguments = Items<Value>;

/// An item of an event list.
#[derive(Drop)]
pub enum Event {
    /// An event on an element of the page: the event's name, the element's tag, which of the elements of
    /// that tag, from 1, and the value of `$event`.
    On(NgText, NgText, u32, Value),
    /// A call of a method on what a token gives: the token, the method and the arguments.
    Call(NgText, NgText, Arguments),
    /// From here on no pass follows an event.
    Hold,
    /// The pass that was held back follows, where one is asked for, and further ones aren't held back.
    Flush,
}

/// What came of an event.
#[derive(Drop)]
pub enum Outcome {
    /// Listeners ran, or a method, to their end.
    Ran,
    /// A listener or a call met this fault.
    Faulted(Fault),
    /// The page has no such element.
    NoTarget,
    /// Nothing on the event's way listens for it.
    NoListener,
    /// Passes are held back.
    Held,
    /// They aren't held back any more.
    Flushed,
}

/// Where a pass met a fault: a place in the file, the component whose declaration has it, and the path of
/// the view in which the node of that place stands.
#[derive(Drop)]
pub struct Spot {
    pub place: Place,
    pub component: NgText,
    pub path: Path,
}

/// What ends a pass: a fault of the application, or a limit of the pass.
#[derive(Drop)]
pub enum PassFault {
    /// This fault, of an expression, an `init` or an `inject`.
    InView(Fault, Spot),
    /// The pass made more than 50,000 page nodes.
    TooManyNodes(Spot),
    /// A path had more than 63 steps.
    TooDeep(Spot),
}

/// What a pass does to the live nodes of a page. Nodes are named by their serial numbers.
#[derive(Drop)]
pub enum Op {
    /// Makes an element of this tag, of which no attribute is set.
    MakeElement(u64, NgText),
    /// Makes an empty text.
    MakeText(u64),
    /// Sets an attribute, by its name.
    SetAttribute(u64, NgText, NgText),
    /// Takes an attribute away.
    ClearAttribute(u64, NgText),
    /// Sets a text.
    SetText(u64, NgText),
    /// Puts a node into an element, before one of its children or behind the last.
    Place(u64, u64, Option<u64>),
    /// Takes a node off its element.
    Unplace(u64),
    /// Takes a node off its element, and ends it.
    End(u64),
}
