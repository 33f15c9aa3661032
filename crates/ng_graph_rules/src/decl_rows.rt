//! The graphs of pipes and of environments, whose nodes are the declarations by their positions.

ghost use Rattle.std.specs.Prelude.{◌≡◌, [], ◌∷◌, ◌++◌, bytes_eq, None, OnOk, IfOk};
ghost use Rattle.std.specs.HashMap.{get};
ghost use Rattle.std.specs.Option.{option_copied};
ghost use Rattle.ng_graph_rules.specs.CycleRules as spec;

use ng_ast::{Decl, Environment};
use ng_parts::{Declared, Kind};
use ng_scopes::{Act, Usage, decl_usages};
use ng_values::NgText;
use sqlite_items::Items;
use std::alloc::{AllocError, Global};
use std::collections::HashMap;

fn push_pipe(declared: Option<&Declared>, row: &mut Vec<usize>) -> Result<(), AllocError>
    ensures { OnOk result (row.new.items ≡ row.old.items ++ spec.pipe_in (option_copied declared.entry)) }
{
    match declared {
        None => Ok(()),
        Some(declared) => match declared.kind {
            Kind::Pipe(_) => {
                row.push(declared.at)?;
                Ok(())
            }
            Kind::Component => Ok(()),
            Kind::Service => Ok(()),
            Kind::Environment => Ok(()),
            Kind::Token => Ok(()),
        },
    }
}

fn push_applied(
    declared: Option<&Declared>,
    act: &Act,
    row: &mut Vec<usize>,
) -> Result<(), AllocError>
    ensures { OnOk result (row.new.items ≡ row.old.items ++ spec.applied (option_copied declared.entry) act.now) }
{
    match act {
        Act::Piped(_) => {
            push_pipe(declared, row)?;
            Ok(())
        }
        Act::Read => Ok(()),
        Act::Asked => Ok(()),
        Act::Called(_) => Ok(()),
        Act::Set => Ok(()),
        Act::Done(_) => Ok(()),
        Act::Sent(_, _, _) => Ok(()),
        Act::Outlet => Ok(()),
    }
}

fn applied_in(
    alloc: Global,
    index: &HashMap<NgText, Declared>,
    usages: &[Usage],
) -> Result<Items<usize>, AllocError>
    ensures { IfOk result (λ row. row ≡ spec.applied_in (get bytes_eq index.now) usages.now) }
{
    let mut row = Vec::new(alloc);
    for usage in usages {
        push_applied(index.get(&usage.name), &usage.act, &mut row)?;
    }
    Ok(Items::from_vec(row))
}

fn pipe_row(
    alloc: Global,
    index: &HashMap<NgText, Declared>,
    decl: &Decl,
) -> Result<Items<usize>, AllocError>
    ensures { IfOk result (λ row. row ≡ spec.pipe_row (get bytes_eq index.now) decl.now) }
{
    match decl {
        Decl::Pipe(_) => {
            let usages = decl_usages(alloc, decl)?;
            applied_in(alloc, index, usages.as_slice())
        }
        Decl::Component(_) => Ok(Items::new(alloc)),
        Decl::Service(_) => Ok(Items::new(alloc)),
        Decl::Environment(_) => Ok(Items::new(alloc)),
        Decl::Token(_, _) => Ok(Items::new(alloc)),
        Decl::Bootstrap(_, _, _) => Ok(Items::new(alloc)),
    }
}

/// An edge leads from a declared pipe to each declared pipe that its value names.
pub(crate) fn pipe_graph(
    alloc: Global,
    index: &HashMap<NgText, Declared>,
    decls: &[Decl],
) -> Result<Vec<Items<usize>>, AllocError>
    ensures { IfOk result (λ rows. rows.items ≡ spec.pipe_graph (get bytes_eq index.now) decls.now) }
{
    let mut rows = Vec::new(alloc);
    for decl in decls {
        let row = pipe_row(alloc, index, decl)?;
        rows.push(row)?;
    }
    Ok(rows)
}

fn one(alloc: Global, at: usize) -> Result<Items<usize>, AllocError>
    ensures { IfOk result (λ row. row ≡ at ∷ []) }
{
    let mut row = Vec::new(alloc);
    row.push(at)?;
    Ok(Items::from_vec(row))
}

fn environment_in(alloc: Global, declared: Option<&Declared>) -> Result<Items<usize>, AllocError>
    ensures { IfOk result (λ row. row ≡ spec.environment_in (option_copied declared.entry)) }
{
    match declared {
        None => Ok(Items::new(alloc)),
        Some(declared) => match declared.kind {
            Kind::Environment => one(alloc, declared.at),
            Kind::Component => Ok(Items::new(alloc)),
            Kind::Service => Ok(Items::new(alloc)),
            Kind::Pipe(_) => Ok(Items::new(alloc)),
            Kind::Token => Ok(Items::new(alloc)),
        },
    }
}

fn above_none(
    alloc: Global,
    index: &HashMap<NgText, Declared>,
    name: &NgText,
) -> Result<Items<usize>, AllocError>
    ensures { IfOk result (λ row. row ≡ spec.above (get bytes_eq index.now) name.now None) }
{
    if name.as_str() == "root" {
        return Ok(Items::new(alloc));
    }
    let root = NgText::new(alloc, "root")?;
    environment_in(alloc, index.get(&root))
}

fn above(
    alloc: Global,
    index: &HashMap<NgText, Declared>,
    environment: &Environment,
) -> Result<Items<usize>, AllocError>
    ensures { IfOk result (λ row. row ≡ spec.above (get bytes_eq index.now) environment.now.name environment.now.under) }
{
    match &environment.under {
        Some(name) => environment_in(alloc, index.get(name)),
        None => above_none(alloc, index, &environment.name),
    }
}

fn environment_row(
    alloc: Global,
    index: &HashMap<NgText, Declared>,
    decl: &Decl,
) -> Result<Items<usize>, AllocError>
    ensures { IfOk result (λ row. row ≡ spec.environment_row (get bytes_eq index.now) decl.now) }
{
    match decl {
        Decl::Environment(environment) => above(alloc, index, environment),
        Decl::Component(_) => Ok(Items::new(alloc)),
        Decl::Service(_) => Ok(Items::new(alloc)),
        Decl::Pipe(_) => Ok(Items::new(alloc)),
        Decl::Token(_, _) => Ok(Items::new(alloc)),
        Decl::Bootstrap(_, _, _) => Ok(Items::new(alloc)),
    }
}

/// An edge leads from an environment to the one that it stands under.
pub(crate) fn environment_graph(
    alloc: Global,
    index: &HashMap<NgText, Declared>,
    decls: &[Decl],
) -> Result<Vec<Items<usize>>, AllocError>
    ensures { IfOk result (λ rows. rows.items ≡ spec.environment_graph (get bytes_eq index.now) decls.now) }
{
    let mut rows = Vec::new(alloc);
    for decl in decls {
        let row = environment_row(alloc, index, decl)?;
        rows.push(row)?;
    }
    Ok(rows)
}
