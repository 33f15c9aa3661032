ghost use Rattle.std.specs.Prelude.{◌≡◌, ◌++◌, List, [], ◌∷◌, Option, Some, None, IfOk, OnOk};
ghost use Rattle.std.specs.List.{cons_option, filter_map, list_any};
ghost use Rattle.std.specs.Option.{option_copied};
ghost use Rattle.ng_tree.specs.Names.{token_in, tokens, environment_in, environments, is_root, with_root};

use crate::Names;
use ng_ast::{App, Decl};
use ng_values::NgText;
use sqlite_items::Items;
use std::alloc::{AllocError, Global};

/// The names of the application's tokens and environments. Services, components and tokens are tokens,
/// numbered from 0 in the order of the file. Environments are numbered in the order of the file too,
/// and `root` is the last where it isn't declared. The names are shared, so it takes time linear in the
/// number of declarations.
pub fn names_of(alloc: Global, app: &App) -> Result<Names, AllocError>
    ensures tokens { IfOk result (λ names. names.tokens ≡ tokens app.now) }
    ensures environments { IfOk result (λ names. names.environments ≡ environments app.now) }
{
    let tokens = token_names(alloc, app.decls.as_slice())?;
    let environments = environment_names(alloc, app.decls.as_slice())?;
    Ok(Names {
        tokens: Items::from_vec(tokens),
        environments: Items::from_vec(environments),
    })
}

// The name of the token that a declaration makes, if it makes one.
fn token_name(decl: &Decl) -> Option<&NgText>
    ensures { option_copied result ≡ token_in decl.now }
{
    match decl {
        Decl::Component(component) => Some(&component.name),
        Decl::Service(service) => Some(&service.name),
        Decl::Pipe(_) => None,
        Decl::Environment(_) => None,
        Decl::Token(_, name) => Some(name),
        Decl::Bootstrap(_, _, _) => None,
    }
}

fn token_names(alloc: Global, decls: &[Decl]) -> Result<Vec<NgText>, AllocError>
    ensures { IfOk result (λ names. names.items ≡ filter_map token_in decls.now) }
{
    let mut names = Vec::new(alloc);
    for decl in decls {
        push_name(&mut names, token_name(decl))?;
    }
    Ok(names)
}

fn environment_name(decl: &Decl) -> Option<&NgText>
    ensures { option_copied result ≡ environment_in decl.now }
{
    match decl {
        Decl::Component(_) => None,
        Decl::Service(_) => None,
        Decl::Pipe(_) => None,
        Decl::Environment(environment) => Some(&environment.name),
        Decl::Token(_, _) => None,
        Decl::Bootstrap(_, _, _) => None,
    }
}

fn environment_names(alloc: Global, decls: &[Decl]) -> Result<Vec<NgText>, AllocError>
    ensures { IfOk result (λ names. names.items ≡ with_root (filter_map environment_in decls.now)) }
{
    let mut names = Vec::new(alloc);
    for decl in decls {
        push_name(&mut names, environment_name(decl))?;
    }
    if !has_root(names.as_slice()) {
        names.push(NgText::new(alloc, "root")?)?;
    }
    Ok(names)
}

// Whether `root` is among the names.
fn has_root(names: &[NgText]) -> bool
    ensures { result ≡ list_any is_root names.now }
{
    names.iter().any(|name| name.as_str() == "root")
}

// Puts the name at the end, where there is one.
fn push_name(names: &mut Vec<NgText>, name: Option<&NgText>) -> Result<(), AllocError>
    ensures { OnOk result (names.new.items ≡ names.old.items ++ cons_option (option_copied name.entry) []) }
{
    if let Some(name) = name {
        names.push(name.copy()?)?;
    }
    Ok(())
}
