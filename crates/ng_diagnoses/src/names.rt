//! The names that stand in an application where a rule asks for one.

use crate::refused::Spot;
use ng_ast::{App, AttrForm, Branch, Component, Decl, Member, MemberKind, Place, TAttr, TNode};
use ng_parts::nodes_of;
use ng_values::NgText;
use std::alloc::{AllocError, Global};

// The built-in pipes.
const PIPES: [&str; 5] = ["uppercase", "lowercase", "json", "length", "slice"];

// The events that an element has.
const EVENTS: [&str; 16] = [
    "click",
    "dblclick",
    "mousedown",
    "mouseup",
    "mouseenter",
    "mouseleave",
    "keydown",
    "keyup",
    "keypress",
    "input",
    "change",
    "focus",
    "blur",
    "submit",
    "reset",
    "scroll",
];

// The properties that an element has.
const PROPERTIES: [&str; 28] = [
    "id",
    "title",
    "lang",
    "dir",
    "name",
    "value",
    "type",
    "placeholder",
    "href",
    "src",
    "alt",
    "min",
    "max",
    "step",
    "width",
    "height",
    "htmlFor",
    "tabIndex",
    "colSpan",
    "rowSpan",
    "hidden",
    "disabled",
    "checked",
    "selected",
    "readOnly",
    "required",
    "multiple",
    "open",
];

/// What kind of name a rule asks for.
#[derive(Clone, Copy, PartialEq, Eq)]
enum Wanted {
    Component,
    Service,
    Token,
    Pipe,
    Environment,
    Tag,
    Input,
    Output,
    Field,
    InScope,
    Template,
}

// What kind of name the rule of this number asks for.
fn wanted_by(rule: u8) -> Option<Wanted> {
    match rule {
        1 | 29 => Some(Wanted::Component),
        3 => Some(Wanted::Tag),
        5 => Some(Wanted::Input),
        7 => Some(Wanted::Output),
        8 => Some(Wanted::Pipe),
        11 => Some(Wanted::InScope),
        15 => Some(Wanted::Field),
        20 => Some(Wanted::Token),
        22 => Some(Wanted::Service),
        24 => Some(Wanted::Environment),
        26 => Some(Wanted::Template),
        _ => None,
    }
}

fn push_all<'a>(names: &[&'static str], found: &mut Vec<&'a str>) -> Result<(), AllocError> {
    for name in names {
        found.push(*name)?;
    }
    Ok(())
}

fn push_optional<'a>(name: &'a Option<NgText>, found: &mut Vec<&'a str>) -> Result<(), AllocError> {
    if let Some(name) = name {
        found.push(name.as_str())?;
    }
    Ok(())
}

// Whether a place stands behind another one.
fn is_behind(place: Place, spot: Spot) -> bool {
    (place.line, place.column) > (spot.line, spot.column)
}

fn place_of(decl: &Decl) -> Place {
    match decl {
        Decl::Component(component) => component.place,
        Decl::Service(service) => service.place,
        Decl::Pipe(pipe) => pipe.place,
        Decl::Environment(environment) => environment.place,
        Decl::Token(place, _) => *place,
        Decl::Bootstrap(place, _, _) => *place,
    }
}

// The declaration in which a place stands.
fn holder(app: &App, spot: Spot) -> Option<&Decl> {
    let mut found = None;
    for decl in app.decls.as_slice() {
        if is_behind(place_of(decl), spot) {
            return found;
        }
        found = Some(decl);
    }
    found
}

// The name of a declaration, where it is one of this kind.
fn push_declared<'a>(
    decl: &'a Decl,
    wanted: Wanted,
    found: &mut Vec<&'a str>,
) -> Result<(), AllocError> {
    let name = match (decl, wanted) {
        (Decl::Component(component), Wanted::Component | Wanted::Token) => &component.name,
        (Decl::Service(service), Wanted::Service | Wanted::Token) => &service.name,
        (Decl::Pipe(pipe), Wanted::Pipe) => &pipe.name,
        (Decl::Environment(environment), Wanted::Environment) => &environment.name,
        (Decl::Token(_, name), Wanted::Token) => name,
        _ => return Ok(()),
    };
    found.push(name.as_str())?;
    Ok(())
}

// Whether a member is one of this kind.
fn is_wanted(kind: &MemberKind, wanted: Wanted) -> bool {
    match (kind, wanted) {
        (MemberKind::Input(_, _), Wanted::Input) => true,
        (MemberKind::Output, Wanted::Output) => true,
        (MemberKind::Field(_), Wanted::Field) => true,
        (MemberKind::Init(_), _) => false,
        (MemberKind::Provide(_), _) => false,
        (MemberKind::ViewProvide(_), _) => false,
        (_, Wanted::InScope) => true,
        _ => false,
    }
}

fn push_members<'a>(
    members: &'a [Member],
    wanted: Wanted,
    found: &mut Vec<&'a str>,
) -> Result<(), AllocError> {
    for member in members {
        if is_wanted(&member.kind, wanted) {
            found.push(member.name.as_str())?;
        }
    }
    Ok(())
}

fn push_tags<'a>(component: &'a Component, found: &mut Vec<&'a str>) -> Result<(), AllocError> {
    for one in component.selector.list.as_slice() {
        push_optional(&one.tag, found)?;
    }
    Ok(())
}

fn push_branch_names<'a>(
    branches: &'a [Branch],
    found: &mut Vec<&'a str>,
) -> Result<(), AllocError> {
    for branch in branches {
        push_optional(&branch.name, found)?;
    }
    Ok(())
}

// The references among the attributes of an element, and the variables, where a name in scope is wanted.
fn push_attribute_names<'a>(
    attributes: &'a [TAttr],
    wanted: Wanted,
    found: &mut Vec<&'a str>,
) -> Result<(), AllocError> {
    for attribute in attributes {
        match &attribute.form {
            AttrForm::Reference => found.push(attribute.name.as_str())?,
            AttrForm::Variable(_) if wanted == Wanted::InScope => {
                found.push(attribute.name.as_str())?
            }
            _ => {}
        }
    }
    Ok(())
}

// The names that a node gives to its views.
fn push_node_names<'a>(
    node: &'a TNode,
    wanted: Wanted,
    found: &mut Vec<&'a str>,
) -> Result<(), AllocError> {
    match node {
        TNode::Element(_, tag, attributes, _) => {
            if wanted == Wanted::InScope || tag.as_str() == "ng-template" {
                push_attribute_names(attributes.as_slice(), wanted, found)?;
            }
            Ok(())
        }
        TNode::Text(_, _) => Ok(()),
        _ if wanted != Wanted::InScope => Ok(()),
        TNode::If(_, branches) => push_branch_names(branches.as_slice(), found),
        TNode::For(_, head, _, _) => {
            found.push(head.row.as_str())?;
            for pair in head.vars.as_slice() {
                found.push(pair.0.as_str())?;
            }
            Ok(())
        }
        TNode::Switch(_, _, _) => Ok(()),
        TNode::Let(_, name, _) => {
            found.push(name.as_str())?;
            Ok(())
        }
    }
}

// The names of the views of a component.
fn push_view_names<'a>(
    alloc: Global,
    component: &'a Component,
    wanted: Wanted,
    found: &mut Vec<&'a str>,
) -> Result<(), AllocError> {
    let nodes = nodes_of(alloc, component.template.nodes.as_slice())?;
    for node in nodes {
        push_node_names(node, wanted, found)?;
    }
    Ok(())
}

// The names of this kind in the declaration in which a place stands.
fn push_held<'a>(
    alloc: Global,
    decl: &'a Decl,
    wanted: Wanted,
    found: &mut Vec<&'a str>,
) -> Result<(), AllocError> {
    match decl {
        Decl::Component(component) => {
            push_members(component.members.as_slice(), wanted, found)?;
            if wanted == Wanted::Field {
                return Ok(());
            }
            push_view_names(alloc, component, wanted, found)
        }
        Decl::Service(service) => push_members(service.members.as_slice(), wanted, found),
        Decl::Pipe(pipe) => {
            for name in pipe.params.as_slice() {
                found.push(name.as_str())?;
            }
            Ok(())
        }
        _ => Ok(()),
    }
}

// The names of this kind in a declaration, wherever the place stands.
fn push_shared<'a>(
    decl: &'a Decl,
    wanted: Wanted,
    found: &mut Vec<&'a str>,
) -> Result<(), AllocError> {
    match (decl, wanted) {
        (Decl::Component(component), Wanted::Input | Wanted::Output) => {
            push_members(component.members.as_slice(), wanted, found)
        }
        (Decl::Component(component), Wanted::Tag) => push_tags(component, found),
        _ => push_declared(decl, wanted, found),
    }
}

// The names of this kind that no declaration has to give.
fn push_given(wanted: Wanted, found: &mut Vec<&str>) -> Result<(), AllocError> {
    match wanted {
        Wanted::Pipe => push_all(&PIPES, found),
        Wanted::Input => push_all(&PROPERTIES, found),
        Wanted::Output => push_all(&EVENTS, found),
        Wanted::Environment => push_all(&["root"], found),
        _ => Ok(()),
    }
}

/// The names of an application among which the rule of this number, broken at this place, asks for one.
pub(crate) fn names_for(
    alloc: Global,
    app: &App,
    rule: u8,
    spot: Spot,
) -> Result<Vec<&str>, AllocError> {
    let mut found = Vec::new(alloc);
    let Some(wanted) = wanted_by(rule) else {
        return Ok(found);
    };
    match wanted {
        Wanted::Field | Wanted::InScope | Wanted::Template => {
            if let Some(decl) = holder(app, spot) {
                push_held(alloc, decl, wanted, &mut found)?;
            }
        }
        _ => {
            for decl in app.decls.as_slice() {
                push_shared(decl, wanted, &mut found)?;
            }
            push_given(wanted, &mut found)?;
        }
    }
    Ok(found)
}
