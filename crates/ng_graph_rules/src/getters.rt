//! The graph of the getters of a declaration, whose nodes are its members by their positions.

ghost use Rattle.std.specs.Prelude.{◌≡◌, ◌++◌, OnOk, IfOk};
ghost use Rattle.ng_scopes.specs.Declarations.{member_scope};
ghost use Rattle.ng_scopes.specs.Names.{nothing};
ghost use Rattle.ng_scopes.specs.Scope.{kept_in};
ghost use Rattle.ng_graph_rules.specs.CycleRules as spec;

use ng_ast::{Member, MemberKind};
use ng_scopes::{Act, Entry, Meaning, Sort, Usage, member_names, member_usages, table_of};
use ng_values::NgText;
use sqlite_items::Items;
use std::alloc::{AllocError, Global};
use std::collections::HashMap;

fn push_getter(sort: Sort, at: usize, row: &mut Vec<usize>) -> Result<(), AllocError>
    ensures { OnOk result (row.new.items ≡ row.old.items ++ spec.getter_at sort at) }
{
    match sort {
        Sort::Getter => {
            row.push(at)?;
            Ok(())
        }
        Sort::Field => Ok(()),
        Sort::Signal => Ok(()),
        Sort::Method => Ok(()),
        Sort::Inject => Ok(()),
        Sort::Input => Ok(()),
        Sort::Output => Ok(()),
        Sort::Query => Ok(()),
    }
}

fn push_meant(meaning: Option<Meaning>, row: &mut Vec<usize>) -> Result<(), AllocError>
    ensures { OnOk result (row.new.items ≡ row.old.items ++ spec.getter_in meaning) }
{
    match meaning {
        Some(Meaning::Member(sort, at)) => {
            push_getter(sort, at, row)?;
            Ok(())
        }
        Some(Meaning::Parameter) => Ok(()),
        Some(Meaning::Variable) => Ok(()),
        Some(Meaning::Let) => Ok(()),
        Some(Meaning::Ahead) => Ok(()),
        Some(Meaning::Reference) => Ok(()),
        Some(Meaning::Template) => Ok(()),
        None => Ok(()),
    }
}

fn push_asked(meaning: Option<Meaning>, act: &Act, row: &mut Vec<usize>) -> Result<(), AllocError>
    ensures { OnOk result (row.new.items ≡ row.old.items ++ spec.asked meaning act.now) }
{
    match act {
        Act::Piped(_) => Ok(()),
        Act::Outlet => Ok(()),
        Act::Read => {
            push_meant(meaning, row)?;
            Ok(())
        }
        Act::Asked => {
            push_meant(meaning, row)?;
            Ok(())
        }
        Act::Called(_) => {
            push_meant(meaning, row)?;
            Ok(())
        }
        Act::Set => {
            push_meant(meaning, row)?;
            Ok(())
        }
        Act::Done(_) => {
            push_meant(meaning, row)?;
            Ok(())
        }
        Act::Sent(_, _, _) => {
            push_meant(meaning, row)?;
            Ok(())
        }
    }
}

fn asked_in(alloc: Global, usages: &[Usage]) -> Result<Items<usize>, AllocError>
    ensures { IfOk result (λ row. row ≡ spec.asked_in usages.now) }
{
    let mut row = Vec::new(alloc);
    for usage in usages {
        push_asked(usage.meaning, &usage.act, &mut row)?;
    }
    Ok(Items::from_vec(row))
}

fn getter_row(
    alloc: Global,
    table: &HashMap<NgText, Entry>,
    member: &Member,
) -> Result<Items<usize>, AllocError>
    ensures { IfOk result (λ row. row ≡ spec.getter_row (kept_in table.now nothing 0) member.now) }
{
    match &member.kind {
        MemberKind::Getter(_) => {
            let usages = member_usages(alloc, table, member)?;
            asked_in(alloc, usages.as_slice())
        }
        MemberKind::Field(_) => Ok(Items::new(alloc)),
        MemberKind::Signal(_) => Ok(Items::new(alloc)),
        MemberKind::Method(_, _) => Ok(Items::new(alloc)),
        MemberKind::Init(_) => Ok(Items::new(alloc)),
        MemberKind::Inject(_, _) => Ok(Items::new(alloc)),
        MemberKind::Input(_, _) => Ok(Items::new(alloc)),
        MemberKind::Output => Ok(Items::new(alloc)),
        MemberKind::Provide(_) => Ok(Items::new(alloc)),
        MemberKind::ViewProvide(_) => Ok(Items::new(alloc)),
        MemberKind::Query(_, _, _) => Ok(Items::new(alloc)),
    }
}

fn rows_in(
    alloc: Global,
    table: &HashMap<NgText, Entry>,
    members: &[Member],
) -> Result<Vec<Items<usize>>, AllocError>
    ensures { IfOk result (λ rows. rows.items ≡ spec.getter_graph (kept_in table.now nothing 0) members.now) }
{
    let mut rows = Vec::new(alloc);
    for member in members {
        let row = getter_row(alloc, table, member)?;
        rows.push(row)?;
    }
    Ok(rows)
}

/// An edge leads from a getter to each own getter that it names.
pub(crate) fn getter_graph(
    alloc: Global,
    members: &[Member],
) -> Result<Vec<Items<usize>>, AllocError>
    ensures { IfOk result (λ rows. rows.items ≡ spec.getter_graph (member_scope members.now) members.now) }
{
    let names = member_names(alloc, members)?;
    let table = table_of(alloc, names.as_slice())?;
    let rows = rows_in(alloc, &table, members)?;
    Ok(rows)
}
