//! The declarations of a file, in which templates are still texts.

use ng_ast::{Environment, Member, Pipe, Place, Selector, Service};
use ng_values::NgText;
use sqlite_items::Items;

/// A template as it stands in the file: the text between its backticks, and the place of that text's first byte.
#[derive(Drop)]
pub struct Source {
    pub place: Place,
    pub text: NgText,
}

/// A component whose template is still a text.
#[derive(Drop)]
pub struct Outline {
    pub place: Place,
    pub name: NgText,
    pub selector: Selector,
    pub onpush: bool,
    pub members: Items<Member>,
    pub template: Source,
}

/// A declaration. `Bootstrap` has the component and the environment that the application starts with.
#[derive(Drop)]
pub enum Entry {
    Component(Outline),
    Service(Service),
    Pipe(Pipe),
    Environment(Environment),
    Token(Place, NgText),
    Bootstrap(Place, NgText, Option<NgText>),
}
