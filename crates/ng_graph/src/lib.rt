//! Which nodes of a graph lie on a cycle.
#![tactic(auto)]

ghost use Rattle.std.specs.Prelude.{◌≡◌, ◌<◌, [], ◌∷◌, length, OnOk, IfOk, IsTrue, ◌↔◌};
ghost use Rattle.ng_graph.specs.Walk.{IsOnCycle, TellsCycles};
ghost use Rattle.std.specs.Prelude.{◌+◌, ◌≤◌, slice_get, Some};
ghost use Rattle.ng_graph.specs.Visit.{Visits, left, Searched};

use sqlite_items::Items;
use std::alloc::{AllocError, Global};

/// Marks a node and puts it into the queue, if it is one and is not marked.
fn visit(node: usize, marked: &mut [bool], queue: &mut Vec<usize>) -> Result<(), AllocError>
    ensures { OnOk result (Visits (node ∷ []) marked.old marked.new queue.old.items queue.new.items) }
{
    if node >= marked.len() {
        return Ok(());
    }
    if marked[node] {
        return Ok(());
    }
    queue.push(node)?;
    marked[node] = true;
    Ok(())
}

/// Visits each node of a row.
fn visit_all(row: &[usize], marked: &mut [bool], queue: &mut Vec<usize>) -> Result<(), AllocError>
    ensures { OnOk result (Visits row.now marked.old marked.new queue.old.items queue.new.items) }
{
    for node in row {
        visit(*node, marked, queue)?;
    }
    Ok(())
}

fn row_of(graph: &[Items<usize>], node: usize) -> &Items<usize>
    requires { node < length graph.now }
    ensures { slice_get graph.now node ≡ Some result.now }
{
    &graph[node]
}

/// Looks at one node of the queue.
fn look(
    graph: &[Items<usize>],
    start: usize,
    at: usize,
    marked: &mut [bool],
    queue: &mut Vec<usize>,
) -> Result<(), AllocError>
    requires at { at < length queue.old.items }
    requires searched { Searched graph.now start marked.old queue.old.items at }
    ensures more { OnOk result (Searched graph.now start marked.new queue.new.items (at + 1)) }
    ensures falls { OnOk result ((length queue.new.items + left marked.new) + left marked.new ≤ (length queue.old.items + left marked.old) + left marked.old) }
    ensures grows { OnOk result (length queue.old.items ≤ length queue.new.items) }
{
    let row = row_of(graph, queue[at]);
    visit_all(row.as_slice(), marked, queue)?;
    Ok(())
}

/// Looks at each node of the queue.
fn search(
    graph: &[Items<usize>],
    start: usize,
    marked: &mut [bool],
    queue: &mut Vec<usize>,
) -> Result<(), AllocError>
    requires { Searched graph.now start marked.old queue.old.items 0 }
    ensures { OnOk result (Searched graph.now start marked.new queue.new.items (length queue.new.items)) }
{
    let mut at = 0;
    while at < queue.len() {
        look(graph, start, at, marked, queue)?;
        at += 1;
    }
    Ok(())
}

fn decide(
    graph: &[Items<usize>],
    start: usize,
    marked: &mut [bool],
    queue: &mut Vec<usize>,
) -> Result<bool, AllocError>
    requires start { start < length graph.now }
    requires searched { Searched graph.now start marked.old queue.old.items 0 }
    ensures { IfOk result (λ answer. IsTrue answer ↔ IsOnCycle graph.now start) }
{
    search(graph, start, marked, queue)?;
    Ok(marked[start])
}

fn decide_at(alloc: Global, graph: &[Items<usize>], start: usize) -> Result<bool, AllocError>
    requires { start < length graph.now }
    ensures { IfOk result (λ answer. IsTrue answer ↔ IsOnCycle graph.now start) }
{
    let mut marked = vec![in alloc; false; graph.len()]?;
    let mut queue = Vec::new(alloc);
    queue.push(start)?;
    decide(graph, start, marked.as_mut_slice(), &mut queue)
}

/// Whether a node reaches itself by one edge or more. The nodes are numbered from 0, and the row of a node has the nodes that an
/// edge leads to from there; a number without a row is no node, and no walk goes on there. The only error is want of memory.
///
/// A node with an empty row costs nothing. Else the time is that of going over the rows of all nodes that `start` reaches, and the
/// memory one item for each node of the graph.
pub fn reaches_itself(
    alloc: Global,
    graph: &[Items<usize>],
    start: usize,
) -> Result<bool, AllocError>
    ensures { IfOk result (λ answer. IsTrue answer ↔ IsOnCycle graph.now start) }
{
    if start >= graph.len() {
        return Ok(false);
    }
    if row_of(graph, start).is_empty() {
        return Ok(false);
    }
    decide_at(alloc, graph, start)
}

/// Whether each node reaches itself by one edge or more, as `reaches_itself` says, in the order of the nodes and at the cost of a call
/// of it for each. The only error is want of memory.
pub fn cycles(alloc: Global, graph: &[Items<usize>]) -> Result<Vec<bool>, AllocError>
    ensures { IfOk result (λ answers. TellsCycles graph.now answers.items) }
{
    let mut answers = Vec::new(alloc);
    for node in 0..graph.len() {
        let answer = reaches_itself(alloc, graph, node)?;
        answers.push(answer)?;
    }
    Ok(answers)
}
