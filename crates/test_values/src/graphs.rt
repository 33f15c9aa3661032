//! Nodes on a cycle.

use ng_graph::{cycles, reaches_itself};
use sqlite_items::Items;
use std::alloc::{AllocError, Global};
use std::test::Fail;

fn graph(alloc: Global, rows: &[&[usize]]) -> Result<Vec<Items<usize>>, AllocError> {
    let mut graph = Vec::new(alloc);
    for row in rows {
        graph.push(Items::from_slice(alloc, row)?)?;
    }
    Ok(graph)
}

#[test]
fn nodes_behind_a_cycle_are_not_on_it(rt: HostRuntime) -> Result<(), Fail> {
    let alloc = rt.alloc();
    // 0 leads to the cycle of 1 and 2, 3 to itself, 4 to 0 and 3, and 5 nowhere.
    let rows = graph(alloc, &[&[1], &[2, 2], &[1], &[3], &[0, 3], &[]])?;
    let answers = cycles(alloc, rows.as_slice())?;
    assert_eq!(rt;
        answers.as_slice(),
        [false, true, true, true, false, false].as_slice()
    );
    Ok(())
}

#[test]
fn a_cycle_over_all_nodes(rt: HostRuntime) -> Result<(), Fail> {
    let alloc = rt.alloc();
    let rows = graph(alloc, &[&[2], &[0], &[3], &[1]])?;
    let answers = cycles(alloc, rows.as_slice())?;
    assert_eq!(rt; answers.as_slice(), [true, true, true, true].as_slice());
    Ok(())
}

#[test]
fn numbers_without_a_row_are_no_nodes(rt: HostRuntime) -> Result<(), Fail> {
    let alloc = rt.alloc();
    let rows = graph(alloc, &[&[1, 7]])?;
    assert!(rt; !reaches_itself(alloc, rows.as_slice(), 0)?);
    assert!(rt; !reaches_itself(alloc, rows.as_slice(), 1)?);
    Ok(())
}
