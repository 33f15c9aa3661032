//! A name that stands in an expression or a statement.

ghost use Rattle.std.specs.Prelude.{◌≡◌, [], ◌∷◌, ◌++◌, OnOk, bytes_eq, codes, ◌&&◌};
ghost use Rattle.ng_scopes.specs.Usages.{is_listener, use_of};
ghost use Rattle.ng_scopes.specs.Scope.{meaning_of};

use crate::names::Meaning;
use crate::scope::Scope;
use ng_ast::Place;
use ng_values::NgText;
use std::alloc::AllocError;

/// What is done with a name.
#[derive(Drop)]
pub enum Act {
    /// It is read.
    Read,
    /// It is x of `x.s()`.
    Asked,
    /// It is called in an expression, with so many arguments.
    Called(usize),
    /// It is the name of a pipe with so many arguments.
    Piped(usize),
    /// It is the target of `=` or of `[( )]`.
    Set,
    /// It is called by a statement, with so many arguments.
    Done(usize),
    /// A statement calls this method on it, with so many arguments. The truth value says that the owner is the name alone,
    /// without `?` and position.
    Sent(bool, NgText, usize),
    /// It is the name of an outlet's template.
    Outlet,
}

/// The kind of the part in which a name stands. A block head, a track expression, an `@let`, an outlet's test and a context are
/// bindings.
#[derive(Clone, Copy)]
pub enum Part {
    Binding,
    Listener,
    Getter,
    Method,
    Init,
    Pipe,
}

/// A part: where it begins, and its kind.
#[derive(Clone, Copy)]
pub struct Spot {
    pub place: Place,
    pub part: Part,
}

/// A name that stands in a part, what is done with it there, and what it means, if it means something.
#[derive(Drop)]
pub struct Usage {
    pub spot: Spot,
    pub name: NgText,
    pub act: Act,
    pub meaning: Option<Meaning>,
}

fn is_event(part: Part, name: &NgText) -> bool
    ensures { result ≡ (is_listener part && bytes_eq name.now (codes "$event")) }
{
    match part {
        Part::Listener => name.as_str() == "$event",
        Part::Binding => false,
        Part::Getter => false,
        Part::Method => false,
        Part::Init => false,
        Part::Pipe => false,
    }
}

/// Adds a name with its meaning.
pub(crate) fn push_use(
    spot: Spot,
    scope: &Scope<'_>,
    name: &NgText,
    act: Act,
    found: &mut Vec<Usage>,
) -> Result<(), AllocError>
    ensures { OnOk result (found.new.items ≡ found.old.items ++ use_of spot (meaning_of scope.now) (record { name = name.now; act = act }) ∷ []) }
{
    let meaning = if is_event(spot.part, name) {
        Some(Meaning::Parameter)
    } else {
        scope.find(name)
    };
    let name = name.copy()?;
    found.push(Usage {
        spot,
        name,
        act,
        meaning,
    })?;
    Ok(())
}
