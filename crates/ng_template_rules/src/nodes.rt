//! The rules on the nodes of a template.

ghost use Rattle.std.specs.Prelude.{◌≡◌, ◌++◌, [], false, map, OnOk, IfOk};
ghost use Rattle.std.specs.List.{flat_map};
ghost use Rattle.std.specs.Option.{option_copied};
ghost use Rattle.ng_ast.specs.Nodes.{all_nodes};
ghost use Rattle.ng_ast.specs.declared.refusals.Rule.TheVariants as rule;
ghost use Rattle.ng_parts.specs.Flat.{pointed};
ghost use Rattle.ng_parts.specs.Sites.{repeats};
ghost use Rattle.ng_breaks.specs.Least.{broken, least_of, of_rule};
ghost use Rattle.ng_hosts.specs.Index.{IsIndex};
ghost use Rattle.ng_template_rules.specs.TemplateRules as spec;
ghost use Rattle.ng_template_rules.specs.TemplateRules.{content_breaks, node_breaks};

use crate::allowed::{is_content, is_template};
use crate::hosts::judge_host;
use crate::slots::judge_slots;
use ng_ast::{Branch, Component, ForHead, Place, Refusal, Rule, TAttr, TNode};
use ng_breaks::{judge_repeats, offer};
use ng_hosts::SelectorIndex;
use ng_parts::{Site, nodes_of, push_if, repeated_nodes};
use ng_scopes::{Known, Meaning, branch_names, inner_names, row_names, view_names};
use ng_values::NgText;
use std::alloc::{AllocError, Global};

fn is_reference(meaning: Meaning) -> bool
    ensures { result ≡ spec.is_reference meaning }
{
    match meaning {
        Meaning::Reference => true,
        Meaning::Template => true,
        Meaning::Parameter => false,
        Meaning::Variable => false,
        Meaning::Let => false,
        Meaning::Ahead => false,
        Meaning::Member(_, _) => false,
    }
}

fn references(alloc: Global, names: &[Known]) -> Result<Vec<Site>, AllocError>
    ensures { IfOk result (λ sites. sites.items ≡ spec.references names.now) }
{
    let mut sites = Vec::new(alloc);
    for known in names {
        push_if(
            is_reference(known.meaning),
            known.place,
            &known.name,
            &mut sites,
        )?;
    }
    Ok(sites)
}

fn variables(alloc: Global, names: &[Known]) -> Result<Vec<Site>, AllocError>
    ensures { IfOk result (λ sites. sites.items ≡ spec.variables names.now) }
{
    let mut sites = Vec::new(alloc);
    for known in names {
        push_if(
            !is_reference(known.meaning),
            known.place,
            &known.name,
            &mut sites,
        )?;
    }
    Ok(sites)
}

/// Takes the names that a view has twice.
#[tactic(auto, using(ng_breaks::specs::LeastLaws::least_laws))]
fn judge_view(alloc: Global, names: &[Known], best: &mut Option<Refusal>) -> Result<(), AllocError>
    ensures { OnOk result (best.new ≡ least_of best.old (spec.view_breaks names.now)) }
{
    let references = references(alloc, names)?;
    judge_repeats(alloc, references.as_slice(), best)?;
    let variables = variables(alloc, names)?;
    judge_repeats(alloc, variables.as_slice(), best)?;
    Ok(())
}

fn judge_branch(
    alloc: Global,
    branch: &Branch,
    best: &mut Option<Refusal>,
) -> Result<(), AllocError>
    ensures { OnOk result (best.new ≡ least_of best.old (spec.branch_breaks branch.now)) }
{
    let names = branch_names(alloc, branch)?;
    judge_view(alloc, names.as_slice(), best)?;
    Ok(())
}

fn judge_branches(
    alloc: Global,
    branches: &[Branch],
    best: &mut Option<Refusal>,
) -> Result<(), AllocError>
    ensures { OnOk result (best.new ≡ least_of best.old (flat_map spec.branch_breaks branches.now)) }
{
    for branch in branches {
        judge_branch(alloc, branch, best)?;
    }
    Ok(())
}

fn judge_empty(
    alloc: Global,
    empty: &Option<Branch>,
    best: &mut Option<Refusal>,
) -> Result<(), AllocError>
    ensures { OnOk result (best.new ≡ least_of best.old (spec.optional_breaks empty.now)) }
{
    match empty {
        None => Ok(()),
        Some(branch) => {
            judge_branch(alloc, branch, best)?;
            Ok(())
        }
    }
}

#[tactic(auto, using(crate::proofs::NodeLaws::content_laws))]
fn judge_content(node: &TNode, best: &mut Option<Refusal>) -> Result<(), AllocError>
    ensures { OnOk result (best.new ≡ least_of best.old (content_breaks node.now)) }
{
    match node {
        TNode::Element(place, tag, _, _) => {
            offer(is_content(tag), Rule::N18, *place, tag, best)?;
            Ok(())
        }
        TNode::Text(_, _) => Ok(()),
        TNode::If(_, _) => Ok(()),
        TNode::For(_, _, _, _) => Ok(()),
        TNode::Switch(_, _, _) => Ok(()),
        TNode::Let(_, _, _) => Ok(()),
    }
}

fn judge_contents(nodes: &[&TNode], best: &mut Option<Refusal>) -> Result<(), AllocError>
    ensures { OnOk result (best.new ≡ least_of best.old (flat_map content_breaks (pointed nodes.now))) }
{
    for node in nodes {
        judge_content(node, best)?;
    }
    Ok(())
}

fn judge_defaults(
    owner: &NgText,
    branches: &[Branch],
    best: &mut Option<Refusal>,
) -> Result<(), AllocError>
    ensures { OnOk result (best.new ≡ least_of best.old (spec.default_breaks owner.now false branches.now)) }
{
    let mut met = false;
    for branch in branches {
        let is_default = branch.test.is_none();
        offer(is_default && met, Rule::N27, branch.place, owner, best)?;
        met = met || is_default;
    }
    Ok(())
}

fn judge_inner_view(
    alloc: Global,
    tag: &NgText,
    attrs: &[TAttr],
    nodes: &[TNode],
    best: &mut Option<Refusal>,
) -> Result<(), AllocError>
    ensures { OnOk result (best.new ≡ least_of best.old (spec.inner_view_breaks tag.now attrs.now nodes.now)) }
{
    if is_template(tag) || is_content(tag) {
        let names = inner_names(alloc, tag, attrs, nodes)?;
        judge_view(alloc, names.as_slice(), best)?;
        return Ok(());
    }
    Ok(())
}

fn judge_inner_contents(
    alloc: Global,
    tag: &NgText,
    nodes: &[TNode],
    best: &mut Option<Refusal>,
) -> Result<(), AllocError>
    ensures { OnOk result (best.new ≡ least_of best.old (spec.inner_content_breaks tag.now nodes.now)) }
{
    if is_template(tag) {
        let inside = nodes_of(alloc, nodes)?;
        judge_contents(inside.as_slice(), best)?;
        return Ok(());
    }
    Ok(())
}

#[tactic(auto, using(ng_breaks::specs::LeastLaws::least_laws))]
fn judge_for(
    alloc: Global,
    owner: &NgText,
    place: Place,
    head: &ForHead,
    nodes: &[TNode],
    empty: &Option<Branch>,
    best: &mut Option<Refusal>,
) -> Result<(), AllocError>
    ensures { OnOk result (best.new ≡ least_of best.old (spec.for_breaks owner.now place head.now nodes.now empty.now)) }
{
    offer(head.track.is_none(), Rule::N28, place, owner, best)?;
    let names = row_names(alloc, place, head, nodes)?;
    judge_view(alloc, names.as_slice(), best)?;
    judge_empty(alloc, empty, best)?;
    let inside = repeated_nodes(alloc, nodes, empty)?;
    judge_contents(inside.as_slice(), best)?;
    Ok(())
}

/// Takes the breaks of a node by itself, in a component with this name.
#[tactic(auto, using(crate::proofs::NodeLaws::node_laws))]
fn judge_node(
    alloc: Global,
    components: &[&Component],
    index: &SelectorIndex,
    owner: &NgText,
    node: &TNode,
    best: &mut Option<Refusal>,
) -> Result<(), AllocError>
    requires { IsIndex index.now (map (λ c. c.now) components.now) }
    ensures { OnOk result (best.new ≡ least_of best.old (node_breaks (map (λ c. c.now) components.now) owner.now node.now)) }
{
    match node {
        TNode::Element(place, tag, attrs, nodes) => {
            judge_host(
                alloc,
                components,
                index,
                *place,
                tag,
                attrs.as_slice(),
                best,
            )?;
            judge_inner_view(alloc, tag, attrs.as_slice(), nodes.as_slice(), best)?;
            judge_inner_contents(alloc, tag, nodes.as_slice(), best)?;
            Ok(())
        }
        TNode::Text(_, _) => Ok(()),
        TNode::If(_, branches) => {
            judge_branches(alloc, branches.as_slice(), best)?;
            Ok(())
        }
        TNode::For(place, head, nodes, empty) => {
            judge_for(alloc, owner, *place, head, nodes.as_slice(), empty, best)?;
            Ok(())
        }
        TNode::Switch(_, _, branches) => {
            judge_branches(alloc, branches.as_slice(), best)?;
            judge_defaults(owner, branches.as_slice(), best)?;
            Ok(())
        }
        TNode::Let(_, _, _) => Ok(()),
    }
}

fn judge_each(
    alloc: Global,
    components: &[&Component],
    index: &SelectorIndex,
    owner: &NgText,
    nodes: &[&TNode],
    best: &mut Option<Refusal>,
) -> Result<(), AllocError>
    requires { IsIndex index.now (map (λ c. c.now) components.now) }
    ensures { OnOk result (best.new ≡ least_of best.old (flat_map (node_breaks (map (λ c. c.now) components.now) owner.now) (pointed nodes.now))) }
{
    for node in nodes {
        judge_node(alloc, components, index, owner, node, best)?;
    }
    Ok(())
}

/// Takes the breaks of the template of a component with this name, among the components of the application in the order of the file.
#[tactic(auto, using(ng_breaks::specs::LeastLaws::least_laws))]
pub(crate) fn judge_template(
    alloc: Global,
    components: &[&Component],
    index: &SelectorIndex,
    owner: &NgText,
    nodes: &[TNode],
    best: &mut Option<Refusal>,
) -> Result<(), AllocError>
    requires { IsIndex index.now (map (λ c. c.now) components.now) }
    ensures { OnOk result (best.new ≡ least_of best.old (spec.template_breaks (map (λ c. c.now) components.now) owner.now nodes.now)) }
{
    let names = view_names(alloc, nodes)?;
    judge_view(alloc, names.as_slice(), best)?;
    let all = nodes_of(alloc, nodes)?;
    judge_each(alloc, components, index, owner, all.as_slice(), best)?;
    judge_slots(alloc, nodes, best)?;
    Ok(())
}
