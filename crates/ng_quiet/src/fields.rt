//! Methods that assign fields.

ghost use Rattle.std.specs.Prelude.{◌≡◌, ◌++◌, ◌&&◌, ◌↔◌, map, zip, bytes_eq, IsTrue, OnOk, IfOk};
ghost use Rattle.std.specs.List.{list_any};
ghost use Rattle.std.specs.HashSet.{contains};
ghost use Rattle.ng_scopes.specs.Declarations.{member_usages as usages_of};
ghost use Rattle.ng_scopes.specs.Names.{nothing};
ghost use Rattle.ng_scopes.specs.Scope.{kept_in};
ghost use Rattle.ng_quiet.specs.Quiet as spec;
ghost use Rattle.ng_quiet.specs.Methods as methods;

use crate::positions::push_if;
use crate::reached::reached;
use ng_ast::{Component, Member};
use ng_scopes::{Act, Entry, Meaning, Sort, Usage, member_names, member_usages, sort_of, table_of};
use ng_values::NgText;
use sqlite_items::Items;
use std::alloc::{AllocError, Global};
use std::collections::{HashMap, HashSet};

fn is_field(sort: Sort) -> bool
    ensures { result ≡ spec.is_field sort }
{
    matches!(sort, Sort::Field)
}

fn is_own_field(meaning: Option<Meaning>) -> bool
    ensures { result ≡ spec.is_own_field meaning }
{
    match meaning {
        Some(Meaning::Member(sort, _)) => is_field(sort),
        Some(Meaning::Variable) => false,
        Some(Meaning::Let) => false,
        Some(Meaning::Ahead) => false,
        Some(Meaning::Parameter) => false,
        Some(Meaning::Reference) => false,
        Some(Meaning::Template) => false,
        None => false,
    }
}

fn sets_field(usage: &Usage) -> bool
    ensures { result ≡ spec.sets_field usage.now.act usage.now.meaning }
{
    match &usage.act {
        Act::Set => is_own_field(usage.meaning),
        Act::Read => false,
        Act::Asked => false,
        Act::Called(_) => false,
        Act::Piped(_) => false,
        Act::Done(_) => false,
        Act::Sent(_, _, _) => false,
        Act::Outlet => false,
    }
}

fn assigns_itself(usages: &[Usage]) -> bool
    ensures { result ≡ spec.assigns_itself usages.now }
{
    usages.iter().any(sets_field)
}

fn push_method(sort: Sort, at: usize, row: &mut Vec<usize>) -> Result<(), AllocError>
    ensures { OnOk result (row.new.items ≡ row.old.items ++ spec.method_at sort at) }
{
    match sort {
        Sort::Method => {
            row.push(at)?;
            Ok(())
        }
        Sort::Field => Ok(()),
        Sort::Signal => Ok(()),
        Sort::Getter => Ok(()),
        Sort::Inject => Ok(()),
        Sort::Input => Ok(()),
        Sort::Output => Ok(()),
        Sort::Query => Ok(()),
    }
}

fn push_meant(meaning: Option<Meaning>, row: &mut Vec<usize>) -> Result<(), AllocError>
    ensures { OnOk result (row.new.items ≡ row.old.items ++ spec.method_in meaning) }
{
    match meaning {
        Some(Meaning::Member(sort, at)) => {
            push_method(sort, at, row)?;
            Ok(())
        }
        Some(Meaning::Variable) => Ok(()),
        Some(Meaning::Let) => Ok(()),
        Some(Meaning::Ahead) => Ok(()),
        Some(Meaning::Parameter) => Ok(()),
        Some(Meaning::Reference) => Ok(()),
        Some(Meaning::Template) => Ok(()),
        None => Ok(()),
    }
}

fn push_call(usage: &Usage, row: &mut Vec<usize>) -> Result<(), AllocError>
    ensures { OnOk result (row.new.items ≡ row.old.items ++ spec.own_call usage.now.act usage.now.meaning) }
{
    match &usage.act {
        Act::Done(_) => {
            push_meant(usage.meaning, row)?;
            Ok(())
        }
        Act::Read => Ok(()),
        Act::Asked => Ok(()),
        Act::Called(_) => Ok(()),
        Act::Piped(_) => Ok(()),
        Act::Set => Ok(()),
        Act::Sent(_, _, _) => Ok(()),
        Act::Outlet => Ok(()),
    }
}

/// The positions of the own methods that the statements of a member call.
fn own_calls(alloc: Global, usages: &[Usage]) -> Result<Items<usize>, AllocError>
    ensures { IfOk result (λ row. row ≡ spec.own_calls usages.now) }
{
    let mut row = Vec::new(alloc);
    for usage in usages {
        push_call(usage, &mut row)?;
    }
    Ok(Items::from_vec(row))
}

/// What the members of a component do, by their positions.
#[derive(Drop)]
struct Methods {
    /// An edge leads from a member to each own method that its statements call.
    graph: Vec<Items<usize>>,
    /// Whether the statements of a member assign a field themselves.
    assigning: Vec<bool>,
}

fn methods_of(
    alloc: Global,
    table: &HashMap<NgText, Entry>,
    members: &[Member],
) -> Result<Methods, AllocError>
    ensures graph { IfOk result (λ m. m.graph.items ≡ methods.call_graph (kept_in table.now nothing 0) members.now) }
    ensures assigning { IfOk result (λ m. m.assigning.items ≡ methods.assigning (kept_in table.now nothing 0) members.now) }
{
    let mut graph = Vec::new(alloc);
    let mut assigning = Vec::new(alloc);
    for member in members {
        let usages = member_usages(alloc, table, member)?;
        let row = own_calls(alloc, usages.as_slice())?;
        graph.push(row)?;
        assigning.push(assigns_itself(usages.as_slice()))?;
    }
    Ok(Methods { graph, assigning })
}

fn is_method(member: &Member) -> bool
    ensures { result ≡ spec.is_method member.now }
{
    match sort_of(&member.kind) {
        Some(Sort::Method) => true,
        Some(Sort::Field) => false,
        Some(Sort::Signal) => false,
        Some(Sort::Getter) => false,
        Some(Sort::Inject) => false,
        Some(Sort::Input) => false,
        Some(Sort::Output) => false,
        Some(Sort::Query) => false,
        None => false,
    }
}

/// The positions of the methods whose names are called.
fn called_methods(
    alloc: Global,
    members: &[Member],
    called: &HashSet<NgText>,
) -> Result<Vec<usize>, AllocError>
    ensures { IfOk result (λ found. found.items ≡ methods.called_methods (contains bytes_eq called.now) 0 members.now) }
{
    let mut found = Vec::new(alloc);
    for (at, member) in members.iter().enumerate() {
        push_if(
            is_method(member) && called.contains(&member.name),
            at,
            &mut found,
        )?;
    }
    Ok(found)
}

fn meet(marks: &[bool], assigning: &[bool]) -> bool
    ensures { result ≡ list_any (λ p. p.0 && p.1) (zip marks.now assigning.now) }
{
    marks
        .iter()
        .copied()
        .zip(assigning.iter().copied())
        .any(|(is_reached, assigns)| is_reached && assigns)
}

/// Whether no method of the component that assigns a field, itself or by own methods that it calls, has one of the names.
pub(crate) fn keeps_fields(
    alloc: Global,
    component: &Component,
    called: &HashSet<NgText>,
) -> Result<bool, AllocError>
    ensures { IfOk result (λ answer. IsTrue answer ↔ spec.KeepsFields (contains bytes_eq called.now) component.now) }
{
    let members = component.members.as_slice();
    let names = member_names(alloc, members)?;
    let table = table_of(alloc, names.as_slice())?;
    let methods = methods_of(alloc, &table, members)?;
    let starts = called_methods(alloc, members, called)?;
    let marks = reached(alloc, methods.graph.as_slice(), starts.as_slice())?;
    Ok(!meet(marks.as_slice(), methods.assigning.as_slice()))
}
