//! The declared names. Components, services, pipes, environments and tokens share one space of names, and a `bootstrap` declares none;
//! this rule is this project's own.

ghost use Rattle.std.specs.Prelude.{◌≡◌, ◌+◌, [], ◌++◌, bytes_eq, OnOk, IfOk, Some};
ghost use Rattle.std.specs.HashMap.{get};
ghost use Rattle.ng_parts.specs.Entries.{IsIndex, decl_entry, first_some, named_in, only};
ghost use Rattle.ng_parts.specs.Sites.{Name};

use ng_ast::Decl;
use ng_values::NgText;
use std::alloc::{AllocError, Global};
use std::collections::HashMap;

/// What a declaration is; a pipe with the number of its parameters.
#[derive(Clone, Copy)]
pub enum Kind {
    Component,
    Service,
    Pipe(usize),
    Environment,
    Token,
}

/// What a name names, and the position of the declaration in the file, from 0.
#[derive(Clone, Copy)]
pub struct Declared {
    pub kind: Kind,
    pub at: usize,
}

/// `count + 1`. What is counted stands in memory, where 2^64 things have no room; so one more than `usize::MAX` is answered as want of
/// memory, and nothing else is.
pub fn one_more(count: usize) -> Result<usize, AllocError>
    ensures { IfOk result (λ next. next ≡ count + 1) }
{
    match count.checked_add(1) {
        Some(next) => Ok(next),
        None => Err(AllocError),
    }
}

fn add_name(
    name: &NgText,
    kind: Kind,
    at: usize,
    index: &mut HashMap<NgText, Declared>,
) -> Result<(), AllocError>
    ensures { OnOk result ((q : Name) → get bytes_eq index.new q ≡ first_some (get bytes_eq index.old q) (only name.now (record { kind = kind; at = at }) q)) }
{
    if index.contains_key(name) {
        return Ok(());
    }
    let name = name.copy()?;
    index.insert(name, Declared { kind, at })?;
    Ok(())
}

fn add_decl(decl: &Decl, at: usize, index: &mut HashMap<NgText, Declared>) -> Result<(), AllocError>
    ensures { OnOk result ((q : Name) → get bytes_eq index.new q ≡ first_some (get bytes_eq index.old q) (named_in (decl_entry at decl.now) q)) }
{
    match decl {
        Decl::Component(component) => {
            add_name(&component.name, Kind::Component, at, index)?;
            Ok(())
        }
        Decl::Service(service) => {
            add_name(&service.name, Kind::Service, at, index)?;
            Ok(())
        }
        Decl::Pipe(pipe) => {
            add_name(&pipe.name, Kind::Pipe(pipe.params.len()), at, index)?;
            Ok(())
        }
        Decl::Environment(environment) => {
            add_name(&environment.name, Kind::Environment, at, index)?;
            Ok(())
        }
        Decl::Token(_, name) => {
            add_name(name, Kind::Token, at, index)?;
            Ok(())
        }
        Decl::Bootstrap(_, _, _) => Ok(()),
    }
}

/// For each name that `decls` declare, what it names and where: of several declarations of one name the first. Positions are those in
/// `decls`, from 0. The only error is want of memory.
///
/// Each name is copied and hashed once: the time is linear in the declarations and the bytes of their names.
pub fn index_of(alloc: Global, decls: &[Decl]) -> Result<HashMap<NgText, Declared>, AllocError>
    ensures { IfOk result (λ index. IsIndex index decls.now) }
{
    let mut index = HashMap::new(alloc);
    let mut at = 0;
    for decl in decls {
        add_decl(decl, at, &mut index)?;
        at = one_more(at)?;
    }
    Ok(index)
}
