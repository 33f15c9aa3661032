//! Names and what they mean.

ghost use Rattle.std.specs.Prelude.{◌≡◌, [], ◌∷◌, ◌++◌, OnOk};
ghost use Rattle.ng_scopes.specs.Names.{variable};

use ng_ast::Place;
use ng_values::NgText;
use std::alloc::AllocError;

/// What a member with a name is.
#[derive(Clone, Copy)]
pub enum Sort {
    Field,
    Signal,
    Getter,
    Method,
    Inject,
    Input,
    Output,
    Query,
}

/// What a name means.
#[derive(Clone, Copy)]
pub enum Meaning {
    /// A parameter of a method or a pipe, or `$event` in a listener.
    Parameter,
    /// A variable of a block's head or of an `ng-template`.
    Variable,
    /// An `@let` that stands before.
    Let,
    /// An `@let` further on.
    Ahead,
    /// The reference of an element other than `ng-template`.
    Reference,
    /// The reference of an `ng-template`.
    Template,
    /// A member of the component or service, with its position there from 0.
    Member(Sort, usize),
}

/// A name that a view, a declaration or a list of parameters makes known, with the place of the part that does so.
#[derive(Drop)]
pub struct Known {
    pub place: Place,
    pub name: NgText,
    pub meaning: Meaning,
}

/// Adds a name at the end.
pub(crate) fn push_name(
    place: Place,
    name: &NgText,
    meaning: Meaning,
    names: &mut Vec<Known>,
) -> Result<(), AllocError>
    ensures { OnOk result (names.new.items ≡ names.old.items ++ record { place = place; name = name.now; meaning = meaning } ∷ []) }
{
    let name = name.copy()?;
    names.push(Known {
        place,
        name,
        meaning,
    })?;
    Ok(())
}

/// Adds a name at the end, if there is one.
pub(crate) fn push_optional(
    place: Place,
    name: &Option<NgText>,
    names: &mut Vec<Known>,
) -> Result<(), AllocError>
    ensures { OnOk result (names.new.items ≡ names.old.items ++ variable place name.now) }
{
    match name {
        None => Ok(()),
        Some(name) => {
            push_name(place, name, Meaning::Variable, names)?;
            Ok(())
        }
    }
}
