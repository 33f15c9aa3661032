//! The names that a view makes known.

ghost use Rattle.std.specs.Prelude.{◌≡◌, [], ◌∷◌, ◌++◌, ◌||◌, map, codes, bytes_eq, if◌then◌else◌, OnOk, IfOk};
ghost use Rattle.std.specs.List.{flat_map};
ghost use Rattle.ng_scopes.specs.Names.{variable};
ghost use Rattle.ng_scopes.specs.Templates as spec;
ghost use Rattle.ng_scopes.specs.Templates.{adds, children_adds, head_variable, known};
ghost use Rattle.ng_scopes.specs.declared.names.Meaning.TheVariants as means;

use crate::attributes::{push_references, push_variables};
use crate::names::{Known, Meaning, push_name, push_optional};
use ng_ast::{Branch, ForHead, Place, TAttr, TNode};
use ng_values::NgText;
use std::alloc::{AllocError, Global};

fn is_template(tag: &NgText) -> bool
    ensures { result ≡ spec.is_template tag.now }
{
    tag.as_str() == "ng-template"
}

/// Whether what stands inside an element of this tag is a view of its own.
pub(crate) fn opens_view(tag: &NgText) -> bool
    ensures { result ≡ spec.opens_view tag.now }
{
    is_template(tag) || tag.as_str() == "ng-content"
}

fn reference_meaning(tag: &NgText) -> Meaning
    ensures { result ≡ spec.reference_meaning tag.now }
{
    if is_template(tag) {
        return Meaning::Template;
    }
    Meaning::Reference
}

/// Adds the names that a node adds to its view.
#[tactic(auto, using(crate::proofs::TemplateLaws::adds_laws))]
#[cycle(adds)]
fn push_adds(node: &TNode, names: &mut Vec<Known>) -> Result<(), AllocError>
    ensures { OnOk result (names.new.items ≡ names.old.items ++ adds node.now) }
{
    match node {
        TNode::Element(_, tag, attrs, nodes) => {
            push_references(reference_meaning(tag), attrs.as_slice(), names)?;
            push_children_adds(tag, nodes.as_slice(), names)?;
            Ok(())
        }
        TNode::Text(_, _) => Ok(()),
        TNode::If(_, _) => Ok(()),
        TNode::For(_, _, _, _) => Ok(()),
        TNode::Switch(_, _, _) => Ok(()),
        TNode::Let(place, name, _) => {
            push_name(*place, name, Meaning::Let, names)?;
            Ok(())
        }
    }
}

#[cycle(adds)]
fn push_children_adds(
    tag: &NgText,
    nodes: &[TNode],
    names: &mut Vec<Known>,
) -> Result<(), AllocError>
    ensures { OnOk result (names.new.items ≡ names.old.items ++ children_adds tag.now nodes.now) }
{
    if opens_view(tag) {
        return Ok(());
    }
    push_all_adds(nodes, names)?;
    Ok(())
}

#[cycle(adds)]
fn push_all_adds(nodes: &[TNode], names: &mut Vec<Known>) -> Result<(), AllocError>
    ensures { OnOk result (names.new.items ≡ names.old.items ++ flat_map adds nodes.now) }
{
    for node in nodes {
        push_adds(node, names)?;
    }
    Ok(())
}

/// The names of a view without a head, as that of a whole template.
pub fn view_names(alloc: Global, nodes: &[TNode]) -> Result<Vec<Known>, AllocError>
    ensures { IfOk result (λ names. names.items ≡ spec.view_names [] nodes.now) }
{
    let mut names = Vec::new(alloc);
    push_all_adds(nodes, &mut names)?;
    Ok(names)
}

/// The names of the view of a branch.
pub fn branch_names(alloc: Global, branch: &Branch) -> Result<Vec<Known>, AllocError>
    ensures { IfOk result (λ names. names.items ≡ spec.view_names (variable branch.now.place branch.now.name) branch.now.nodes) }
{
    let mut names = Vec::new(alloc);
    push_optional(branch.place, &branch.name, &mut names)?;
    push_all_adds(branch.nodes.as_slice(), &mut names)?;
    Ok(names)
}

fn push_element_names(
    tag: &NgText,
    attrs: &[TAttr],
    names: &mut Vec<Known>,
) -> Result<(), AllocError>
    ensures { OnOk result (names.new.items ≡ names.old.items ++ spec.element_names tag.now attrs.now) }
{
    if is_template(tag) {
        push_variables(attrs, names)?;
        return Ok(());
    }
    Ok(())
}

/// The names of the view inside an `ng-template` or an `ng-content`.
pub fn inner_names(
    alloc: Global,
    tag: &NgText,
    attrs: &[TAttr],
    nodes: &[TNode],
) -> Result<Vec<Known>, AllocError>
    ensures { IfOk result (λ names. names.items ≡ spec.view_names (spec.element_names tag.now attrs.now) nodes.now) }
{
    let mut names = Vec::new(alloc);
    push_element_names(tag, attrs, &mut names)?;
    push_all_adds(nodes, &mut names)?;
    Ok(names)
}

fn push_word(
    alloc: Global,
    place: Place,
    word: &str,
    names: &mut Vec<Known>,
) -> Result<(), AllocError>
    ensures { OnOk result (names.new.items ≡ names.old.items ++ head_variable place word.now ∷ []) }
{
    let name = NgText::new(alloc, word)?;
    push_name(place, &name, Meaning::Variable, names)?;
    Ok(())
}

fn push_row_variables(alloc: Global, place: Place, names: &mut Vec<Known>) -> Result<(), AllocError>
    ensures { OnOk result (names.new.items ≡ names.old.items ++ spec.row_variables place) }
{
    push_word(alloc, place, "$index", names)?;
    push_word(alloc, place, "$count", names)?;
    push_word(alloc, place, "$first", names)?;
    push_word(alloc, place, "$last", names)?;
    push_word(alloc, place, "$even", names)?;
    push_word(alloc, place, "$odd", names)?;
    Ok(())
}

fn push_for_named(place: Place, head: &ForHead, names: &mut Vec<Known>) -> Result<(), AllocError>
    ensures { OnOk result (names.new.items ≡ names.old.items ++ spec.for_named place head.now) }
{
    push_name(place, &head.row, Meaning::Variable, names)?;
    for named in head.vars.as_slice() {
        push_name(place, &named.0, Meaning::Variable, names)?;
    }
    Ok(())
}

/// The names of the view of a `@for`'s rows.
pub fn row_names(
    alloc: Global,
    place: Place,
    head: &ForHead,
    nodes: &[TNode],
) -> Result<Vec<Known>, AllocError>
    ensures { IfOk result (λ names. names.items ≡ spec.view_names (spec.for_names place head.now) nodes.now) }
{
    let mut names = Vec::new(alloc);
    push_for_named(place, head, &mut names)?;
    push_row_variables(alloc, place, &mut names)?;
    push_all_adds(nodes, &mut names)?;
    Ok(names)
}

/// The names that a track expression knows.
pub(crate) fn track_names(
    alloc: Global,
    place: Place,
    row: &NgText,
) -> Result<Vec<Known>, AllocError>
    ensures { IfOk result (λ names. names.items ≡ spec.track_names place row.now) }
{
    let mut names = Vec::new(alloc);
    push_name(place, row, Meaning::Variable, &mut names)?;
    push_word(alloc, place, "$index", &mut names)?;
    Ok(names)
}
