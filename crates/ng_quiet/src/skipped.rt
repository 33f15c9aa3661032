//! The components whose check may be left out.

ghost use Rattle.std.specs.Prelude.{◌≡◌, ◌++◌, map, OnOk, IfOk};
ghost use Rattle.std.specs.List.{flat_map};
ghost use Rattle.ng_hosts.specs.Index.{IsIndex};
ghost use Rattle.ng_hosts.specs.Hosts.{positions};
ghost use Rattle.ng_parts.specs.Flat.{pointed};
ghost use Rattle.ng_quiet.specs.Used as spec;

use crate::positions::push_if;
use crate::reached::reached;
use ng_ast::{Component, TNode};
use ng_hosts::{SelectorIndex, host_positions, selector_index};
use ng_parts::nodes_of;
use sqlite_items::Items;
use std::alloc::{AllocError, Global};

/// Adds the positions of the components that a node is a host of.
#[tactic(auto, using(crate::proofs::UsedLaws::node_laws))]
fn push_used(
    alloc: Global,
    components: &[&Component],
    index: &SelectorIndex,
    node: &TNode,
    row: &mut Vec<usize>,
) -> Result<(), AllocError>
    requires { IsIndex index.now (map (λ c. c.now) components.now) }
    ensures { OnOk result (row.new.items ≡ row.old.items ++ spec.node_positions (map (λ c. c.now) components.now) node.now) }
{
    match node {
        TNode::Element(_, tag, attrs, _) => {
            let hosts = host_positions(alloc, components, index, tag, attrs.as_slice())?;
            row.extend_from_slice(hosts.as_slice())?;
            Ok(())
        }
        TNode::Text(_, _) => Ok(()),
        TNode::If(_, _) => Ok(()),
        TNode::For(_, _, _, _) => Ok(()),
        TNode::Switch(_, _, _) => Ok(()),
        TNode::Let(_, _, _) => Ok(()),
    }
}

fn push_all(
    alloc: Global,
    components: &[&Component],
    index: &SelectorIndex,
    nodes: &[&TNode],
    row: &mut Vec<usize>,
) -> Result<(), AllocError>
    requires { IsIndex index.now (map (λ c. c.now) components.now) }
    ensures { OnOk result (row.new.items ≡ row.old.items ++ flat_map (spec.node_positions (map (λ c. c.now) components.now)) (pointed nodes.now)) }
{
    for node in nodes {
        push_used(alloc, components, index, node, row)?;
    }
    Ok(())
}

/// The positions of the components that a component's template uses.
fn used_by(
    alloc: Global,
    components: &[&Component],
    index: &SelectorIndex,
    component: &Component,
) -> Result<Items<usize>, AllocError>
    requires { IsIndex index.now (map (λ c. c.now) components.now) }
    ensures { IfOk result (λ row. row ≡ spec.used_positions (map (λ c. c.now) components.now) component.now) }
{
    let nodes = nodes_of(alloc, component.template.nodes.as_slice())?;
    let mut row = Vec::new(alloc);
    push_all(alloc, components, index, nodes.as_slice(), &mut row)?;
    Ok(Items::from_vec(row))
}

/// An edge leads from a component to each that its template uses.
fn used_graph(
    alloc: Global,
    components: &[&Component],
    index: &SelectorIndex,
) -> Result<Vec<Items<usize>>, AllocError>
    requires { IsIndex index.now (map (λ c. c.now) components.now) }
    ensures { IfOk result (λ graph. graph.items ≡ spec.used_graph (map (λ c. c.now) components.now)) }
{
    let mut graph = Vec::new(alloc);
    for component in components {
        let row = used_by(alloc, components, index, component)?;
        graph.push(row)?;
    }
    Ok(graph)
}

fn on_push(alloc: Global, components: &[&Component]) -> Result<Vec<usize>, AllocError>
    ensures { IfOk result (λ found. found.items ≡ positions (λ c. c.onpush) 0 (map (λ c. c.now) components.now)) }
{
    let mut found = Vec::new(alloc);
    for (at, component) in components.iter().enumerate() {
        push_if(component.onpush, at, &mut found)?;
    }
    Ok(found)
}

/// A mark for each component, which the OnPush ones have and those that the template of a marked one uses.
pub(crate) fn skipped(alloc: Global, components: &[&Component]) -> Result<Vec<bool>, AllocError>
    ensures { IfOk result (λ marks. spec.MarksSkipped (map (λ c. c.now) components.now) marks.items) }
{
    let index = selector_index(alloc, components)?;
    let graph = used_graph(alloc, components, &index)?;
    let starts = on_push(alloc, components)?;
    reached(alloc, graph.as_slice(), starts.as_slice())
}
