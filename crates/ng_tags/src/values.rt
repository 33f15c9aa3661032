//! What the values of attributes say, by the forms of their names.

ghost use Rattle.std.specs.Prelude.{◌≡◌, ℕ, List, IfOk, string_bytes};
ghost use Rattle.ng_ast.specs.declared.AttrForm.{AttrForm};
ghost use Rattle.ng_lex.specs.Values.{Says, OverValue};
ghost use Rattle.ng_lex.specs.Words.{IsOneName};
ghost use Rattle.ng_attributes.specs.Answers.{Answers};
ghost use Rattle.ng_attributes.specs.Places.{Fits};
ghost use Rattle.ng_attributes.specs.Spelling.{IsDecoded};

use crate::outlets::outlet;
use ng_ast::{AttrForm, Place};
use ng_attributes::{Decoded, Stop, expression, listener, one_name, plain};
use ng_lex::NameForm;
use ng_values::NgText;
use std::alloc::{AllocError, Global};

// The name that a two-way binding is bound to.
fn both(alloc: Global, text: &str, place: Place) -> Result<AttrForm, Stop>
    ensures { Answers (λ form. (y : List ℕ) × IsOneName text.now y × (form ≡ AttrForm.Both y)) ⊥ result }
{
    match one_name(text) {
        Some(name) => Ok(AttrForm::Both(NgText::new(alloc, name)?)),
        None => Err(Stop::Syntax(place)),
    }
}

// The unit of a style.
fn unit_of(unit: &Option<NgText>) -> Result<Option<NgText>, AllocError>
    ensures { IfOk result (λ o. o ≡ unit.now) }
{
    match unit {
        Some(unit) => Ok(Some(unit.copy()?)),
        None => Ok(None),
    }
}

/// What an attribute with a name of this form says whose value has these letters; the value stands at the place.
#[tactic(none)]
pub(crate) fn says(
    alloc: Global,
    form: &NameForm,
    place: Place,
    value: Decoded,
) -> Result<AttrForm, Stop>
    requires decoded { IsDecoded value }
    requires fits { Fits place (string_bytes value.text) }
    ensures { Answers (Says form.now place value.letters.items) (OverValue form.now place value.letters.items) result }
{
    match form {
        NameForm::Plain(_) => plain(alloc, value),
        NameForm::Property(_) => match expression(alloc, value.text.as_str(), place) {
            Ok(found) => Ok(AttrForm::Property(found)),
            Err(stop) => Err(stop),
        },
        NameForm::Attribute(_) => match expression(alloc, value.text.as_str(), place) {
            Ok(found) => Ok(AttrForm::Attribute(found)),
            Err(stop) => Err(stop),
        },
        NameForm::Class(_) => match expression(alloc, value.text.as_str(), place) {
            Ok(found) => Ok(AttrForm::Class(found)),
            Err(stop) => Err(stop),
        },
        NameForm::Style(_, unit) => {
            let unit = unit_of(unit)?;
            match expression(alloc, value.text.as_str(), place) {
                Ok(found) => Ok(AttrForm::Style(unit, found)),
                Err(stop) => Err(stop),
            }
        }
        NameForm::Event(_) => match listener(alloc, value.text.as_str(), place) {
            Ok(found) => Ok(AttrForm::Listener(found)),
            Err(stop) => Err(stop),
        },
        NameForm::Both(_) => both(alloc, value.text.as_str(), place),
        NameForm::Reference(_) => Err(Stop::Syntax(place)),
        NameForm::Variable(_) => {
            let Decoded { letters: _, text } = value;
            let member = NgText::from_string(alloc, text)?;
            Ok(AttrForm::Variable(Some(member)))
        }
        NameForm::Outlet => match outlet(alloc, value.text.as_str(), place) {
            Ok(found) => Ok(AttrForm::Outlet(found)),
            Err(stop) => Err(stop),
        },
        NameForm::Context => match expression(alloc, value.text.as_str(), place) {
            Ok(found) => Ok(AttrForm::Context(found)),
            Err(stop) => Err(stop),
        },
    }
}
