//! The nodes of templates, as trees.

use ng_ast::{Branch, Piece, Place, TNode};
use ng_templates::read_template;
use std::alloc::{AllocError, Global};
use std::test::Fail;

fn tell_pieces(told: &mut String, pieces: &[Piece]) -> Result<(), AllocError> {
    told.push_str("'")?;
    for piece in pieces {
        match piece {
            Piece::Text(text) => told.push_str(text.as_str())?,
            Piece::Value(_, _) => told.push_str("{x}")?,
        }
    }
    told.push_str("' ")
}

// A branch: its place, `?` where it has a test, and how many nodes stand in it.
fn tell_branch(alloc: Global, told: &mut String, branch: &Branch) -> Result<(), AllocError> {
    let byte = branch.place.byte;
    let mark = if branch.test.is_some() { "?" } else { "!" };
    let count = branch.nodes.len();
    told.push_str(format!(in alloc; "{byte}{mark}{count} ")?.as_str())
}

fn tell_branches(alloc: Global, told: &mut String, branches: &[Branch]) -> Result<(), AllocError> {
    told.push_str("(")?;
    for branch in branches {
        tell_branch(alloc, told, branch)?;
    }
    told.push_str(") ")
}

// A node with its place, and with the number of nodes that stand in it.
fn tell_node(alloc: Global, told: &mut String, node: &TNode) -> Result<(), AllocError> {
    let place = match node {
        TNode::Element(place, _, _, _)
        | TNode::Text(place, _)
        | TNode::If(place, _)
        | TNode::For(place, _, _, _)
        | TNode::Switch(place, _, _)
        | TNode::Let(place, _, _) => *place,
    };
    let byte = place.byte;
    told.push_str(format!(in alloc; "{byte}")?.as_str())?;
    match node {
        TNode::Element(_, tag, _, nodes) => {
            let count = nodes.len();
            told.push_str(tag.as_str())?;
            told.push_str(format!(in alloc; "/{count} ")?.as_str())
        }
        TNode::Text(_, pieces) => tell_pieces(told, pieces.as_slice()),
        TNode::If(_, branches) => {
            told.push_str("if")?;
            tell_branches(alloc, told, branches.as_slice())
        }
        TNode::For(_, _, nodes, empty) => {
            let count = nodes.len();
            told.push_str(format!(in alloc; "for {count} ")?.as_str())?;
            match empty {
                Some(branch) => tell_branch(alloc, told, branch),
                None => Ok(()),
            }
        }
        TNode::Switch(_, _, branches) => {
            told.push_str("switch")?;
            tell_branches(alloc, told, branches.as_slice())
        }
        TNode::Let(_, _, _) => told.push_str("let "),
    }
}

// The nodes of a template in the order of their numbers.
fn tell(alloc: Global, text: &str) -> Result<String, AllocError> {
    let mut told = String::new(alloc);
    if text.len() > 1048576 {
        return Ok(told);
    }
    let base = Place {
        line: 1,
        column: 1,
        byte: 0,
    };
    if let Ok(template) = read_template(alloc, text, base) {
        for number in 0..99 {
            if let Some(node) = template.node(number) {
                tell_node(alloc, &mut told, node)?;
            }
        }
    }
    Ok(told)
}

#[test]
fn trees(rt: HostRuntime) -> Result<(), Fail> {
    for (text, expected) in [
        ("<p><b> </b><br></p>@let y = x;", "0p/2 3b/0 11br/0 19let "),
        (
            "@if (x) {a} @else if (x) {<p></p>} @else {}d",
            "0if(0?1 12?1 35!0 ) 9'a' 26p/0 43'd' ",
        ),
        (
            "@for (r of x; track r) {a{{ x }}} @empty {e}",
            "0for 1 34!1 24'a{x}' 42'e' ",
        ),
        (
            "@switch (x) { @case (x) {a} @default {} }",
            "0switch(14?1 28!0 ) 25'a' ",
        ),
    ] {
        assert_eq!(rt; tell(rt.alloc(), text)?.as_str(), expected, "{text}");
    }
    Ok(())
}
