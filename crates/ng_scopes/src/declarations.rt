//! The names that stand in members and declarations.

ghost use Rattle.std.specs.Prelude.{◌≡◌, [], ◌++◌, OnOk, IfOk};
ghost use Rattle.std.specs.List.{flat_map};
ghost use Rattle.ng_scopes.specs.Declarations as spec;
ghost use Rattle.ng_scopes.specs.Names.{inside, nothing};
ghost use Rattle.ng_scopes.specs.Scope.{kept_in, meaning_of};
ghost use Rattle.ng_scopes.specs.Templates.{view_reads};
ghost use Rattle.ng_scopes.specs.Usages.{stmt_usages, usages};

use crate::expressions::push_expr;
use crate::names::{Known, Meaning, Sort, push_name};
use crate::scope::{Entry, Scope, View, one_more, table_of};
use crate::statements::push_stmts;
use crate::templates::push_template;
use crate::usage::{Part, Spot, Usage};
use ng_ast::{Component, Decl, Member, MemberKind, Pipe, Place, Stmt};
use ng_values::NgText;
use std::alloc::{AllocError, Global};
use std::collections::HashMap;

/// What a member with a name is; an `init` and a provider have none.
pub fn sort_of(kind: &MemberKind) -> Option<Sort>
    ensures { result ≡ spec.sort_of kind.now }
{
    match kind {
        MemberKind::Field(_) => Some(Sort::Field),
        MemberKind::Signal(_) => Some(Sort::Signal),
        MemberKind::Getter(_) => Some(Sort::Getter),
        MemberKind::Method(_, _) => Some(Sort::Method),
        MemberKind::Init(_) => None,
        MemberKind::Inject(_, _) => Some(Sort::Inject),
        MemberKind::Input(_, _) => Some(Sort::Input),
        MemberKind::Output => Some(Sort::Output),
        MemberKind::Provide(_) => None,
        MemberKind::ViewProvide(_) => None,
        MemberKind::Query(_, _, _) => Some(Sort::Query),
    }
}

fn push_known(at: usize, member: &Member, names: &mut Vec<Known>) -> Result<(), AllocError>
    ensures { OnOk result (names.new.items ≡ names.old.items ++ spec.member_known at member.now) }
{
    match sort_of(&member.kind) {
        None => Ok(()),
        Some(sort) => {
            push_name(member.place, &member.name, Meaning::Member(sort, at), names)?;
            Ok(())
        }
    }
}

/// The names of the members, with their positions.
pub fn member_names(alloc: Global, members: &[Member]) -> Result<Vec<Known>, AllocError>
    ensures { IfOk result (λ names. names.items ≡ spec.member_names members.now) }
{
    let mut names = Vec::new(alloc);
    let mut at = 0;
    for member in members {
        push_known(at, member, &mut names)?;
        at = one_more(at)?;
    }
    Ok(names)
}

fn parameters(alloc: Global, place: Place, params: &[NgText]) -> Result<Vec<Known>, AllocError>
    ensures { IfOk result (λ names. names.items ≡ spec.parameters place params.now) }
{
    let mut names = Vec::new(alloc);
    for param in params {
        push_name(place, param, Meaning::Parameter, &mut names)?;
    }
    Ok(names)
}

fn push_body<'s>(
    place: Place,
    table: &'s HashMap<NgText, Entry>,
    outer: &'s Scope<'s>,
    body: &[Stmt],
    found: &mut Vec<Usage>,
) -> Result<(), AllocError>
    ensures { OnOk result (found.new.items ≡ found.old.items ++ flat_map (stmt_usages (spec.spot place Part.Method) (kept_in table.now (meaning_of outer.now) 0)) body.now) }
{
    let view = View { table, outer };
    let scope = view.scope(0);
    let part = Part::Method;
    push_stmts(Spot { place, part }, &scope, body, found)?;
    Ok(())
}

#[tactic(auto, using(crate::proofs::ScopeLaws::table_laws))]
fn push_method(
    alloc: Global,
    place: Place,
    scope: &Scope<'_>,
    params: &[NgText],
    body: &[Stmt],
    found: &mut Vec<Usage>,
) -> Result<(), AllocError>
    ensures { OnOk result (found.new.items ≡ found.old.items ++ flat_map (stmt_usages (spec.spot place Part.Method) (inside (spec.parameters place params.now) 0 (meaning_of scope.now))) body.now) }
{
    let names = parameters(alloc, place, params)?;
    let table = table_of(alloc, names.as_slice())?;
    push_body(place, &table, &*scope, body, found)?;
    Ok(())
}

/// Adds the names in a member, where the scope has the names of all members.
fn push_member(
    alloc: Global,
    scope: &Scope<'_>,
    member: &Member,
    found: &mut Vec<Usage>,
) -> Result<(), AllocError>
    ensures { OnOk result (found.new.items ≡ found.old.items ++ spec.member_usages (meaning_of scope.now) member.now) }
{
    let place = member.place;
    match &member.kind {
        MemberKind::Getter(value) => {
            let part = Part::Getter;
            push_expr(Spot { place, part }, scope, value, found)?;
            Ok(())
        }
        MemberKind::Method(params, body) => {
            push_method(
                alloc,
                place,
                scope,
                params.as_slice(),
                body.as_slice(),
                found,
            )?;
            Ok(())
        }
        MemberKind::Init(body) => {
            let part = Part::Init;
            push_stmts(Spot { place, part }, scope, body.as_slice(), found)?;
            Ok(())
        }
        MemberKind::Field(_) => Ok(()),
        MemberKind::Signal(_) => Ok(()),
        MemberKind::Inject(_, _) => Ok(()),
        MemberKind::Input(_, _) => Ok(()),
        MemberKind::Output => Ok(()),
        MemberKind::Provide(_) => Ok(()),
        MemberKind::ViewProvide(_) => Ok(()),
        MemberKind::Query(_, _, _) => Ok(()),
    }
}

fn push_members(
    alloc: Global,
    scope: &Scope<'_>,
    members: &[Member],
    found: &mut Vec<Usage>,
) -> Result<(), AllocError>
    ensures { OnOk result (found.new.items ≡ found.old.items ++ spec.members_usages (meaning_of scope.now) members.now) }
{
    for member in members {
        push_member(alloc, scope, member, found)?;
    }
    Ok(())
}

fn push_component_in<'s>(
    alloc: Global,
    table: &'s HashMap<NgText, Entry>,
    outer: &'s Scope<'s>,
    component: &Component,
    found: &mut Vec<Usage>,
) -> Result<(), AllocError>
    ensures { OnOk result (found.new.items ≡ (found.old.items ++ spec.members_usages (kept_in table.now (meaning_of outer.now) 0) component.now.members)
        ++ view_reads [] (kept_in table.now (meaning_of outer.now) 0) component.now.template.nodes) }
{
    let view = View { table, outer };
    let scope = view.scope(0);
    push_members(alloc, &scope, component.members.as_slice(), found)?;
    push_template(alloc, &scope, component.template.nodes.as_slice(), found)?;
    Ok(())
}

#[tactic(auto, using(crate::proofs::ScopeLaws::table_laws))]
fn push_component(
    alloc: Global,
    component: &Component,
    found: &mut Vec<Usage>,
) -> Result<(), AllocError>
    ensures { OnOk result (found.new.items ≡ (found.old.items ++ spec.members_usages (spec.member_scope component.now.members) component.now.members)
        ++ view_reads [] (spec.member_scope component.now.members) component.now.template.nodes) }
{
    let names = member_names(alloc, component.members.as_slice())?;
    let table = table_of(alloc, names.as_slice())?;
    let outer = Scope::Outside;
    push_component_in(alloc, &table, &outer, component, found)?;
    Ok(())
}

fn push_service_in<'s>(
    alloc: Global,
    table: &'s HashMap<NgText, Entry>,
    outer: &'s Scope<'s>,
    members: &[Member],
    found: &mut Vec<Usage>,
) -> Result<(), AllocError>
    ensures { OnOk result (found.new.items ≡ found.old.items ++ spec.members_usages (kept_in table.now (meaning_of outer.now) 0) members.now) }
{
    let view = View { table, outer };
    let scope = view.scope(0);
    push_members(alloc, &scope, members, found)?;
    Ok(())
}

#[tactic(auto, using(crate::proofs::ScopeLaws::table_laws))]
fn push_service(alloc: Global, members: &[Member], found: &mut Vec<Usage>) -> Result<(), AllocError>
    ensures { OnOk result (found.new.items ≡ found.old.items ++ spec.members_usages (spec.member_scope members.now) members.now) }
{
    let names = member_names(alloc, members)?;
    let table = table_of(alloc, names.as_slice())?;
    let outer = Scope::Outside;
    push_service_in(alloc, &table, &outer, members, found)?;
    Ok(())
}

fn push_value_in<'s>(
    table: &'s HashMap<NgText, Entry>,
    outer: &'s Scope<'s>,
    pipe: &Pipe,
    found: &mut Vec<Usage>,
) -> Result<(), AllocError>
    ensures { OnOk result (found.new.items ≡ found.old.items ++ usages (spec.spot pipe.now.place Part.Pipe) (kept_in table.now (meaning_of outer.now) 0) pipe.now.value) }
{
    let view = View { table, outer };
    let scope = view.scope(0);
    let place = pipe.place;
    let part = Part::Pipe;
    push_expr(Spot { place, part }, &scope, &pipe.value, found)?;
    Ok(())
}

#[tactic(auto, using(crate::proofs::ScopeLaws::table_laws))]
fn push_pipe(alloc: Global, pipe: &Pipe, found: &mut Vec<Usage>) -> Result<(), AllocError>
    ensures { OnOk result (found.new.items ≡ found.old.items ++ usages (spec.spot pipe.now.place Part.Pipe) (inside (spec.parameters pipe.now.place pipe.now.params) 0 nothing) pipe.now.value) }
{
    let names = parameters(alloc, pipe.place, pipe.params.as_slice())?;
    let table = table_of(alloc, names.as_slice())?;
    let outer = Scope::Outside;
    push_value_in(&table, &outer, pipe, found)?;
    Ok(())
}

fn push_decl(alloc: Global, decl: &Decl, found: &mut Vec<Usage>) -> Result<(), AllocError>
    ensures { OnOk result (found.new.items ≡ found.old.items ++ spec.decl_usages decl.now) }
{
    match decl {
        Decl::Component(component) => {
            push_component(alloc, component, found)?;
            Ok(())
        }
        Decl::Service(service) => {
            push_service(alloc, service.members.as_slice(), found)?;
            Ok(())
        }
        Decl::Pipe(pipe) => {
            push_pipe(alloc, pipe, found)?;
            Ok(())
        }
        Decl::Environment(_) => Ok(()),
        Decl::Token(_, _) => Ok(()),
        Decl::Bootstrap(_, _, _) => Ok(()),
    }
}

/// The names that stand in a declaration, in the order of the text.
///
/// The cost is the length of the declaration times the depth of its views.
pub fn decl_usages(alloc: Global, decl: &Decl) -> Result<Vec<Usage>, AllocError>
    ensures { IfOk result (λ found. found.items ≡ spec.decl_usages decl.now) }
{
    let mut found = Vec::new(alloc);
    push_decl(alloc, decl, &mut found)?;
    Ok(found)
}

fn each_in<'s>(
    alloc: Global,
    table: &'s HashMap<NgText, Entry>,
    outer: &'s Scope<'s>,
    member: &Member,
) -> Result<Vec<Usage>, AllocError>
    ensures { IfOk result (λ found. found.items ≡ spec.member_usages (kept_in table.now (meaning_of outer.now) 0) member.now) }
{
    let view = View { table, outer };
    let scope = view.scope(0);
    let mut found = Vec::new(alloc);
    push_member(alloc, &scope, member, &mut found)?;
    Ok(found)
}

/// The names that stand in a member, where the table is that of all members of its declaration.
#[tactic(auto, using(crate::proofs::ScopeLaws::table_laws))]
pub fn member_usages(
    alloc: Global,
    table: &HashMap<NgText, Entry>,
    member: &Member,
) -> Result<Vec<Usage>, AllocError>
    ensures { IfOk result (λ found. found.items ≡ spec.member_usages (kept_in table.now nothing 0) member.now) }
{
    let outer = Scope::Outside;
    each_in(alloc, &*table, &outer, member)
}
