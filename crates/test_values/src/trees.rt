//! Nodes by their numbers, copies of an application, and refusals.

use crate::made;
use ng_ast::{
    App, Branch, Component, Decl, ListOf, Place, Refusal, Rule, Selector, TNode, Template,
};
use ng_values::NgText;
use sqlite_items::Items;
use std::alloc::{AllocError, Global};
use std::test::Fail;

fn place(byte: u32) -> Place {
    Place {
        line: 1,
        column: 1,
        byte,
    }
}

fn one<T: Drop>(alloc: Global, item: T) -> Result<Items<T>, AllocError> {
    Ok(Items::of(made::one(alloc, item)?))
}

fn text(alloc: Global, byte: u32) -> TNode {
    TNode::Text(place(byte), Items::new(alloc))
}

// A branch with a node.
fn branch(alloc: Global, byte: u32, node: TNode) -> Result<Branch, AllocError> {
    Ok(Branch {
        place: place(byte),
        test: None,
        name: None,
        nodes: one(alloc, node)?,
    })
}

fn block(alloc: Global) -> Result<TNode, AllocError> {
    let mut branches = one(alloc, branch(alloc, 21, text(alloc, 22))?)?;
    branches.push(branch(alloc, 31, text(alloc, 32))?)?;
    Ok(TNode::If(place(20), branches))
}

// `<p>` with an `@if` of two branches, a text in each, and then a text.
fn template(alloc: Global) -> Result<Template, AllocError> {
    let inside = one(alloc, block(alloc)?)?;
    let tag = NgText::new(alloc, "p")?;
    let element = TNode::Element(place(0), tag, Items::new(alloc), inside);
    let mut nodes = one(alloc, element)?;
    nodes.push(text(alloc, 40))?;
    Ok(Template {
        place: place(0),
        nodes,
    })
}

fn byte_at(template: &Template, number: u32) -> Option<u32> {
    match template.node(number)? {
        TNode::Element(place, _, _, _)
        | TNode::Text(place, _)
        | TNode::If(place, _)
        | TNode::For(place, _, _, _)
        | TNode::Switch(place, _, _)
        | TNode::Let(place, _, _) => Some(place.byte),
    }
}

#[test]
fn nodes_have_numbers_and_branches_none(rt: HostRuntime) -> Result<(), Fail> {
    let template = template(rt.alloc())?;
    for (number, want) in [
        (0, Some(0)),
        (1, Some(20)),
        (2, Some(22)),
        (3, Some(32)),
        (4, Some(40)),
        (5, None),
    ] {
        assert_eq!(rt; byte_at(&template, number), want, "{number}");
    }
    Ok(())
}

fn component(alloc: Global) -> Result<Component, AllocError> {
    Ok(Component {
        place: place(0),
        name: NgText::new(alloc, "A")?,
        selector: Selector {
            list: Items::new(alloc),
        },
        onpush: true,
        members: Items::new(alloc),
        template: template(alloc)?,
    })
}

#[test]
fn an_application_is_copied(rt: HostRuntime) -> Result<(), Fail> {
    let alloc = rt.alloc();
    let decls = one(alloc, Decl::Component(component(alloc)?))?;
    let copy = App { decls }.copy(alloc)?;
    match copy.decls.get(0) {
        Some(Decl::Component(component)) => {
            assert_eq!(rt; byte_at(&component.template, 3), Some(32));
        }
        _ => assert!(rt; false),
    }
    Ok(())
}

#[test]
fn a_nameless_refusal_names_nothing(rt: HostRuntime) -> Result<(), Fail> {
    let refusal = Refusal::nameless(rt.alloc(), Rule::Limit, place(7))?;
    assert_eq!(rt; refusal.rule, Rule::Limit);
    assert_eq!(rt; refusal.place, place(7));
    assert_eq!(rt; refusal.name.as_str(), "");
    Ok(())
}
