//! The nodes of a graph that walks from some nodes lead to.

ghost use Rattle.std.specs.Prelude.{◌≡◌, ◌<◌, ℕ, List, Some, OnOk, IfOk, length, slice_get};
ghost use Rattle.ng_quiet.specs.Reached.{MarksReached, Searches, Takes};

use sqlite_items::Items;
use std::alloc::{AllocError, Global};

fn row_of(graph: &[Items<usize>], node: usize) -> &Items<usize>
    requires { node < length graph.now }
    ensures { slice_get graph.now node ≡ Some result.now }
{
    &graph[node]
}

/// Marks a node that has no mark yet, and puts the nodes that its edges lead to before the search.
fn mark(
    graph: &[Items<usize>],
    node: usize,
    marks: &mut [bool],
    ahead: &mut Vec<usize>,
) -> Result<(), AllocError>
    requires { length marks.old ≡ length graph.now }
    ensures { OnOk result (Takes graph.now node marks.old marks.new ahead.old.items ahead.new.items) }
{
    if node >= graph.len() {
        return Ok(());
    }
    if marks[node] {
        return Ok(());
    }
    ahead.extend_from_slice(row_of(graph, node).as_slice())?;
    marks[node] = true;
    Ok(())
}

/// Goes on with the search until no node is before it.
fn search(
    graph: &[Items<usize>],
    marks: &mut [bool],
    ahead: &mut Vec<usize>,
) -> Result<(), AllocError>
    requires { length marks.old ≡ length graph.now }
    ensures { OnOk result ((starts : List ℕ) → Searches graph.now starts marks.old ahead.old.items → MarksReached graph.now starts marks.new) }
{
    while let Some(node) = ahead.pop() {
        mark(graph, node, marks, ahead)?;
    }
    Ok(())
}

/// A mark for each node of the graph, which those have that a walk of any length leads to from one of `starts`. The row of a node has the
/// nodes that an edge leads to from there; a number without a row is no node.
pub(crate) fn reached(
    alloc: Global,
    graph: &[Items<usize>],
    starts: &[usize],
) -> Result<Vec<bool>, AllocError>
    ensures { IfOk result (λ marks. MarksReached graph.now starts.now marks.items) }
{
    let mut marks = vec![in alloc; false; graph.len()]?;
    let mut ahead = Vec::from_slice(alloc, starts)?;
    search(graph, marks.as_mut_slice(), &mut ahead)?;
    Ok(marks)
}
