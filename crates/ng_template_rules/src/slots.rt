//! The slots of a template.

ghost use Rattle.std.specs.Prelude.{◌≡◌, ◌≤◌, ◌++◌, [], ◌∷◌, length, take, drop, OnOk, IfOk};
ghost use Rattle.ng_ast.specs.Inner.{optional_nodes};
ghost use Rattle.ng_ast.specs.declared.refusals.Rule.TheVariants as rule;
ghost use Rattle.std.specs.List.{flat_map};
ghost use Rattle.ng_parts.specs.Sites.{is_among};
ghost use Rattle.ng_breaks.specs.Least.{broken, least_of};
ghost use Rattle.ng_template_rules.specs.TemplateRules as spec;
ghost use Rattle.ng_template_rules.specs.TemplateRules.{slots, twice, twice_in};

use crate::allowed::is_content;
use ng_ast::{AttrForm, Branch, Place, Refusal, Rule, TAttr, TNode};
use ng_breaks::offer;
use ng_values::NgText;
use std::alloc::{AllocError, Global};

fn push_select(attr: &TAttr, selects: &mut Vec<NgText>) -> Result<(), AllocError>
    ensures { OnOk result (selects.new.items ≡ selects.old.items ++ spec.selects attr.now.name attr.now.form) }
{
    match &attr.form {
        AttrForm::Static(value) => {
            if attr.name.as_str() == "select" {
                let value = value.copy()?;
                selects.push(value)?;
                return Ok(());
            }
            Ok(())
        }
        AttrForm::Joined(_) => Ok(()),
        AttrForm::Property(_) => Ok(()),
        AttrForm::Attribute(_) => Ok(()),
        AttrForm::Class(_) => Ok(()),
        AttrForm::Style(_, _) => Ok(()),
        AttrForm::Listener(_) => Ok(()),
        AttrForm::Both(_) => Ok(()),
        AttrForm::Reference => Ok(()),
        AttrForm::Variable(_) => Ok(()),
        AttrForm::Outlet(_) => Ok(()),
        AttrForm::Context(_) => Ok(()),
    }
}

fn selects(alloc: Global, attrs: &[TAttr]) -> Result<Vec<NgText>, AllocError>
    ensures { IfOk result (λ selects. selects.items ≡ flat_map (λ a. spec.selects a.name a.form) attrs.now) }
{
    let mut selects = Vec::new(alloc);
    for attr in attrs {
        push_select(attr, &mut selects)?;
    }
    Ok(selects)
}

fn slot_name(alloc: Global, selects: &[NgText]) -> Result<NgText, AllocError>
    ensures { IfOk result (λ name. name ≡ spec.slot_name selects.now) }
{
    match selects {
        [] => Ok(NgText::new(alloc, "*")?),
        [select, ..] => {
            if select.as_str().is_empty() {
                return Ok(NgText::new(alloc, "*")?);
            }
            Ok(select.copy()?)
        }
    }
}

fn own_slots(alloc: Global, tag: &NgText, attrs: &[TAttr]) -> Result<Vec<NgText>, AllocError>
    ensures { IfOk result (λ own. own.items ≡ spec.own_slots tag.now attrs.now) }
{
    let mut own = Vec::new(alloc);
    if is_content(tag) {
        let selects = selects(alloc, attrs)?;
        own.push(slot_name(alloc, selects.as_slice())?)?;
        return Ok(own);
    }
    Ok(own)
}

fn is_seen(seen: &[NgText], name: &NgText) -> bool
    ensures { result ≡ is_among seen.now name.now }
{
    seen.iter().any(|earlier| earlier.as_str() == name.as_str())
}

fn judge_own(
    place: Place,
    seen: &[NgText],
    own: &[NgText],
    best: &mut Option<Refusal>,
) -> Result<(), AllocError>
    ensures { OnOk result (best.new ≡ least_of best.old (spec.slot_breaks place seen.now own.now)) }
{
    for name in own {
        offer(is_seen(seen, name), Rule::N17, place, name, best)?;
    }
    Ok(())
}

fn push_all(names: &[NgText], seen: &mut Vec<NgText>) -> Result<(), AllocError>
    ensures { OnOk result (seen.new.items ≡ seen.old.items ++ names.now) }
{
    for name in names {
        let name = name.copy()?;
        seen.push(name)?;
    }
    Ok(())
}

/// Moves all names from a position on.
fn move_tail(
    start: usize,
    seen: &mut Vec<NgText>,
    later: &mut Vec<NgText>,
) -> Result<(), AllocError>
    requires { start ≤ length seen.old.items }
    ensures seen { OnOk result (seen.new.items ≡ take start seen.old.items) }
    ensures later { OnOk result (later.new.items ≡ later.old.items ++ drop start seen.old.items) }
{
    push_all(&seen[start..], later)?;
    seen.truncate(start);
    Ok(())
}

fn judge_element(
    alloc: Global,
    place: Place,
    tag: &NgText,
    attrs: &[TAttr],
    seen: &mut Vec<NgText>,
    best: &mut Option<Refusal>,
) -> Result<(), AllocError>
    ensures seen { OnOk result (seen.new.items ≡ seen.old.items ++ spec.own_slots tag.now attrs.now) }
    ensures best { OnOk result (best.new ≡ least_of best.old (spec.slot_breaks place seen.old.items (spec.own_slots tag.now attrs.now))) }
{
    let own = own_slots(alloc, tag, attrs)?;
    judge_own(place, seen.as_slice(), own.as_slice(), best)?;
    push_all(own.as_slice(), seen)?;
    Ok(())
}

/// Adds the slots of a node to those that were seen, and takes the breaks of the node.
#[tactic(auto, using(crate::proofs::SlotLaws::slot_laws))]
#[cycle(slots)]
fn judge_node(
    alloc: Global,
    node: &TNode,
    seen: &mut Vec<NgText>,
    best: &mut Option<Refusal>,
) -> Result<(), AllocError>
    ensures seen { OnOk result (seen.new.items ≡ seen.old.items ++ slots node.now) }
    ensures best { OnOk result (best.new ≡ least_of best.old (twice seen.old.items node.now)) }
{
    match node {
        TNode::Element(place, tag, attrs, nodes) => {
            judge_element(alloc, *place, tag, attrs.as_slice(), seen, best)?;
            judge_nodes(alloc, nodes.as_slice(), seen, best)?;
            Ok(())
        }
        TNode::Text(_, _) => Ok(()),
        TNode::If(_, branches) => {
            judge_branches(alloc, branches.as_slice(), seen, best)?;
            Ok(())
        }
        TNode::For(_, _, nodes, empty) => {
            judge_nodes(alloc, nodes.as_slice(), seen, best)?;
            judge_empty(alloc, empty, seen, best)?;
            Ok(())
        }
        TNode::Switch(_, _, branches) => {
            judge_branches(alloc, branches.as_slice(), seen, best)?;
            Ok(())
        }
        TNode::Let(_, _, _) => Ok(()),
    }
}

#[cycle(slots)]
fn judge_nodes(
    alloc: Global,
    nodes: &[TNode],
    seen: &mut Vec<NgText>,
    best: &mut Option<Refusal>,
) -> Result<(), AllocError>
    ensures seen { OnOk result (seen.new.items ≡ seen.old.items ++ flat_map slots nodes.now) }
    ensures best { OnOk result (best.new ≡ least_of best.old (twice_in seen.old.items nodes.now)) }
{
    for node in nodes {
        judge_node(alloc, node, seen, best)?;
    }
    Ok(())
}

/// Takes the breaks of a branch, and moves its slots from those that were seen to those that are seen after the block.
#[cycle(slots)]
fn judge_branch(
    alloc: Global,
    branch: &Branch,
    seen: &mut Vec<NgText>,
    later: &mut Vec<NgText>,
    best: &mut Option<Refusal>,
) -> Result<(), AllocError>
    ensures seen { OnOk result (seen.new.items ≡ seen.old.items) }
    ensures later { OnOk result (later.new.items ≡ later.old.items ++ flat_map slots branch.now.nodes) }
    ensures best { OnOk result (best.new ≡ least_of best.old (twice_in seen.old.items branch.now.nodes)) }
{
    let start = seen.len();
    judge_nodes(alloc, branch.nodes.as_slice(), seen, best)?;
    move_tail(start, seen, later)?;
    Ok(())
}

#[cycle(slots)]
fn judge_branches(
    alloc: Global,
    branches: &[Branch],
    seen: &mut Vec<NgText>,
    best: &mut Option<Refusal>,
) -> Result<(), AllocError>
    ensures seen { OnOk result (seen.new.items ≡ seen.old.items ++ flat_map (λ b. flat_map slots b.nodes) branches.now) }
    ensures best { OnOk result (best.new ≡ least_of best.old (flat_map (λ b. twice_in seen.old.items b.nodes) branches.now)) }
{
    let mut later = Vec::new(alloc);
    for branch in branches {
        judge_branch(alloc, branch, seen, &mut later, best)?;
    }
    seen.append(&mut later)?;
    Ok(())
}

#[cycle(slots)]
fn judge_empty(
    alloc: Global,
    empty: &Option<Branch>,
    seen: &mut Vec<NgText>,
    best: &mut Option<Refusal>,
) -> Result<(), AllocError>
    ensures seen { OnOk result (seen.new.items ≡ seen.old.items ++ flat_map slots (optional_nodes empty.now)) }
    ensures best { OnOk result (best.new ≡ least_of best.old (twice_in seen.old.items (optional_nodes empty.now))) }
{
    match empty {
        None => Ok(()),
        Some(branch) => {
            judge_nodes(alloc, branch.nodes.as_slice(), seen, best)?;
            Ok(())
        }
    }
}

/// Takes the slots that a template gives twice.
pub(crate) fn judge_slots(
    alloc: Global,
    nodes: &[TNode],
    best: &mut Option<Refusal>,
) -> Result<(), AllocError>
    ensures { OnOk result (best.new ≡ least_of best.old (twice_in [] nodes.now)) }
{
    let mut seen = Vec::new(alloc);
    judge_nodes(alloc, nodes, &mut seen, best)?;
    Ok(())
}
