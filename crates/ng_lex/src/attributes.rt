//! The forms of the names of attributes.

use ng_values::NgText;

/// The form of an attribute's name, with the bare word in it: a plain name `a`, `[p]`, `[attr.a]`, `[class.c]`, `[style.s]` and
/// `[style.s.u]`, `(ev)`, `[(x)]`, `#r`, `let-x`, `[ngTemplateOutlet]`, `[ngTemplateOutletContext]`.
#[derive(Drop)]
pub enum NameForm {
    Plain(NgText),
    Property(NgText),
    Attribute(NgText),
    Class(NgText),
    /// With the unit, where it has one.
    Style(NgText, Option<NgText>),
    Event(NgText),
    Both(NgText),
    Reference(NgText),
    Variable(NgText),
    Outlet,
    Context,
}
