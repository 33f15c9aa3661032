//! The declarations of a file's entries, with their templates read.

ghost use Rattle.std.specs.Prelude.{◌≡◌, reverse, IfOk};
ghost use Rattle.std.specs.List.{All};
ghost use Rattle.ng_app.specs.Answers.{Fits, SourceFits, AnswersComponent, AnswersEntry, AnswersEntries};

use ng_ast::{Component, Decl, ReadError};
use ng_declare::{Entry, Outline};
use ng_templates::read_template;
use sqlite_items::Items;
use std::alloc::{AllocError, Global};

// The component, with its template read.
fn component(alloc: Global, outline: Outline) -> Result<Component, ReadError>
    requires { Fits outline.template }
    ensures { AnswersComponent outline result }
{
    let Outline {
        place,
        name,
        selector,
        onpush,
        members,
        template: source,
    } = outline;
    let template = read_template(alloc, source.text.as_str(), source.place)?;
    Ok(Component {
        place,
        name,
        selector,
        onpush,
        members,
        template,
    })
}

// The declaration of an entry.
fn fill(alloc: Global, entry: Entry) -> Result<Decl, ReadError>
    requires { SourceFits entry }
    ensures { AnswersEntry entry result }
{
    match entry {
        Entry::Component(outline) => Ok(Decl::Component(component(alloc, outline)?)),
        Entry::Service(service) => Ok(Decl::Service(service)),
        Entry::Pipe(pipe) => Ok(Decl::Pipe(pipe)),
        Entry::Environment(environment) => Ok(Decl::Environment(environment)),
        Entry::Token(place, name) => Ok(Decl::Token(place, name)),
        Entry::Bootstrap(place, name, inside) => Ok(Decl::Bootstrap(place, name, inside)),
    }
}

// The entries, the last of them first.
fn reversed(alloc: Global, entries: Items<Entry>) -> Result<Items<Entry>, AllocError>
    ensures { IfOk result (λ turned. turned ≡ reverse entries) }
{
    let mut left = entries;
    let mut turned = Items::new(alloc);
    while let Some(entry) = left.pop() {
        turned.push(entry)?;
    }
    Ok(turned)
}

/// The declarations of the entries, of which the first that has none is refused.
pub fn fill_all(alloc: Global, entries: Items<Entry>) -> Result<Items<Decl>, ReadError>
    requires { All SourceFits entries }
    ensures { AnswersEntries entries result }
{
    let mut ahead = reversed(alloc, entries)?;
    let mut decls = Items::new(alloc);
    while let Some(entry) = ahead.pop() {
        decls.push(fill(alloc, entry)?)?;
    }
    Ok(decls)
}
