//! The names that stand in a template.

ghost use Rattle.std.specs.Prelude.{◌≡◌, [], ◌+◌, ◌++◌, OnOk, IfOk};
ghost use Rattle.std.specs.List.{flat_map};
ghost use Rattle.ng_scopes.specs.Names.{inside, nothing};
ghost use Rattle.ng_scopes.specs.Scope.{kept_in, meaning_of, names_at};
ghost use Rattle.ng_scopes.specs.Templates as spec;
ghost use Rattle.ng_scopes.specs.Templates.{branch_reads, lets, lets_in, reads, reads_in, view_reads};

use crate::attributes::{push_attrs, push_binding, push_pieces};
use crate::names::Known;
use crate::scope::{Entry, Scope, View, one_more, table_of};
use crate::usage::Usage;
use crate::views::{branch_names, inner_names, opens_view, row_names, track_names, view_names};
use ng_ast::{Branch, Expr, ForHead, Place, TAttr, TNode};
use ng_values::NgText;
use std::alloc::{AllocError, Global};
use std::collections::HashMap;

fn push_test(
    place: Place,
    scope: &Scope<'_>,
    test: &Option<Expr>,
    found: &mut Vec<Usage>,
) -> Result<(), AllocError>
    ensures { OnOk result (found.new.items ≡ found.old.items ++ spec.test_usages place (meaning_of scope.now) test.now) }
{
    match test {
        None => Ok(()),
        Some(expr) => {
            push_binding(place, scope, expr, found)?;
            Ok(())
        }
    }
}

fn push_track(
    alloc: Global,
    place: Place,
    head: &ForHead,
    found: &mut Vec<Usage>,
) -> Result<(), AllocError>
    ensures { OnOk result (found.new.items ≡ found.old.items ++ spec.test_usages place (inside (spec.track_names place head.now.row) 0 nothing) head.now.track) }
{
    let names = track_names(alloc, place, &head.row)?;
    let table = table_of(alloc, names.as_slice())?;
    let outer = Scope::Outside;
    push_tracked(place, &table, &outer, &head.track, found)?;
    Ok(())
}

fn push_tracked<'s>(
    place: Place,
    table: &'s HashMap<NgText, Entry>,
    outer: &'s Scope<'s>,
    track: &Option<Expr>,
    found: &mut Vec<Usage>,
) -> Result<(), AllocError>
    ensures { OnOk result (found.new.items ≡ found.old.items ++ spec.test_usages place (kept_in table.now (meaning_of outer.now) 0) track.now) }
{
    let view = View { table, outer };
    let scope = view.scope(0);
    push_test(place, &scope, track, found)?;
    Ok(())
}

fn push_for_head(
    alloc: Global,
    place: Place,
    scope: &Scope<'_>,
    head: &ForHead,
    found: &mut Vec<Usage>,
) -> Result<(), AllocError>
    ensures { OnOk result (found.new.items ≡ found.old.items ++ spec.for_usages place (meaning_of scope.now) head.now) }
{
    push_binding(place, scope, &head.list, found)?;
    push_track(alloc, place, head, found)?;
    Ok(())
}

/// Adds the names in a node. The result says how many `@let`s of its view have passed then.
#[tactic(auto, using(crate::proofs::TemplateLaws::reads_laws))]
#[cycle(reads)]
fn push_node(
    alloc: Global,
    view: View<'_>,
    passed: usize,
    node: &TNode,
    found: &mut Vec<Usage>,
) -> Result<usize, AllocError>
    ensures passed { IfOk result (λ next. next ≡ passed + lets node.now) }
    ensures found { OnOk result (found.new.items ≡ found.old.items ++ reads (names_at view.entry) passed node.now) }
{
    let scope = view.scope(passed);
    match node {
        TNode::Element(_, tag, attrs, nodes) => {
            push_attrs(&scope, attrs.as_slice(), found)?;
            let next = push_children(
                alloc,
                view,
                passed,
                tag,
                attrs.as_slice(),
                nodes.as_slice(),
                found,
            )?;
            Ok(next)
        }
        TNode::Text(_, pieces) => {
            push_pieces(&scope, pieces.as_slice(), found)?;
            Ok(passed)
        }
        TNode::If(_, branches) => {
            push_branches(alloc, &scope, branches.as_slice(), found)?;
            Ok(passed)
        }
        TNode::For(place, head, nodes, empty) => {
            push_for_head(alloc, *place, &scope, head, found)?;
            push_rows(alloc, *place, &scope, head, nodes.as_slice(), found)?;
            push_empty(alloc, &scope, empty, found)?;
            Ok(passed)
        }
        TNode::Switch(place, value, branches) => {
            push_binding(*place, &scope, value, found)?;
            push_branches(alloc, &scope, branches.as_slice(), found)?;
            Ok(passed)
        }
        TNode::Let(place, _, value) => {
            push_binding(*place, &scope, value, found)?;
            let next = one_more(passed)?;
            Ok(next)
        }
    }
}

#[cycle(reads)]
fn push_children(
    alloc: Global,
    view: View<'_>,
    passed: usize,
    tag: &NgText,
    attrs: &[TAttr],
    nodes: &[TNode],
    found: &mut Vec<Usage>,
) -> Result<usize, AllocError>
    ensures passed { IfOk result (λ next. next ≡ passed + spec.children_lets tag.now nodes.now) }
    ensures found { OnOk result (found.new.items ≡ found.old.items ++ spec.children_reads tag.now attrs.now (names_at view.entry) passed nodes.now) }
{
    if opens_view(tag) {
        let scope = view.scope(passed);
        let names = inner_names(alloc, tag, attrs, nodes)?;
        push_inside(alloc, names.as_slice(), &scope, nodes, found)?;
        return Ok(passed);
    }
    let next = push_nodes(alloc, view, passed, nodes, found)?;
    Ok(next)
}

#[cycle(reads)]
fn push_nodes(
    alloc: Global,
    view: View<'_>,
    passed: usize,
    nodes: &[TNode],
    found: &mut Vec<Usage>,
) -> Result<usize, AllocError>
    ensures passed { IfOk result (λ next. next ≡ passed + lets_in nodes.now) }
    ensures found { OnOk result (found.new.items ≡ found.old.items ++ reads_in (names_at view.entry) passed nodes.now) }
{
    let mut next = passed;
    for node in nodes {
        next = push_node(alloc, view, next, node, found)?;
    }
    Ok(next)
}

#[cycle(reads)]
fn push_rows(
    alloc: Global,
    place: Place,
    scope: &Scope<'_>,
    head: &ForHead,
    nodes: &[TNode],
    found: &mut Vec<Usage>,
) -> Result<(), AllocError>
    ensures { OnOk result (found.new.items ≡ found.old.items ++ view_reads (spec.for_names place head.now) (meaning_of scope.now) nodes.now) }
{
    let names = row_names(alloc, place, head, nodes)?;
    push_inside(alloc, names.as_slice(), &*scope, nodes, found)?;
    Ok(())
}

#[cycle(reads)]
fn push_empty(
    alloc: Global,
    scope: &Scope<'_>,
    empty: &Option<Branch>,
    found: &mut Vec<Usage>,
) -> Result<(), AllocError>
    ensures { OnOk result (found.new.items ≡ found.old.items ++ spec.optional_reads (meaning_of scope.now) empty.now) }
{
    match empty {
        None => Ok(()),
        Some(branch) => {
            push_branch(alloc, scope, branch, found)?;
            Ok(())
        }
    }
}

#[cycle(reads)]
fn push_branches(
    alloc: Global,
    scope: &Scope<'_>,
    branches: &[Branch],
    found: &mut Vec<Usage>,
) -> Result<(), AllocError>
    ensures { OnOk result (found.new.items ≡ found.old.items ++ flat_map (branch_reads (meaning_of scope.now)) branches.now) }
{
    for branch in branches {
        push_branch(alloc, scope, branch, found)?;
    }
    Ok(())
}

#[tactic(auto, using(crate::proofs::TemplateLaws::branch_laws))]
#[cycle(reads)]
fn push_branch(
    alloc: Global,
    scope: &Scope<'_>,
    branch: &Branch,
    found: &mut Vec<Usage>,
) -> Result<(), AllocError>
    ensures { OnOk result (found.new.items ≡ found.old.items ++ branch_reads (meaning_of scope.now) branch.now) }
{
    push_test(branch.place, scope, &branch.test, found)?;
    let names = branch_names(alloc, branch)?;
    push_inside(
        alloc,
        names.as_slice(),
        &*scope,
        branch.nodes.as_slice(),
        found,
    )?;
    Ok(())
}

#[cycle(reads)]
fn push_inside<'s>(
    alloc: Global,
    names: &[Known],
    outer: &'s Scope<'s>,
    nodes: &[TNode],
    found: &mut Vec<Usage>,
) -> Result<(), AllocError>
    ensures { OnOk result (found.new.items ≡ found.old.items ++ reads_in (λ passed. inside names.now passed (meaning_of outer.now)) 0 nodes.now) }
{
    let table = table_of(alloc, names)?;
    push_view(alloc, &table, &*outer, nodes, found)?;
    Ok(())
}

#[cycle(reads)]
fn push_view<'s>(
    alloc: Global,
    table: &'s HashMap<NgText, Entry>,
    outer: &'s Scope<'s>,
    nodes: &[TNode],
    found: &mut Vec<Usage>,
) -> Result<(), AllocError>
    ensures { OnOk result (found.new.items ≡ found.old.items ++ reads_in (kept_in table.now (meaning_of outer.now)) 0 nodes.now) }
{
    let view = View { table, outer };
    push_nodes(alloc, view, 0, nodes, found)?;
    Ok(())
}

/// Adds the names in a whole template.
pub(crate) fn push_template(
    alloc: Global,
    scope: &Scope<'_>,
    nodes: &[TNode],
    found: &mut Vec<Usage>,
) -> Result<(), AllocError>
    ensures { OnOk result (found.new.items ≡ found.old.items ++ view_reads [] (meaning_of scope.now) nodes.now) }
{
    let names = view_names(alloc, nodes)?;
    push_inside(alloc, names.as_slice(), &*scope, nodes, found)?;
    Ok(())
}
