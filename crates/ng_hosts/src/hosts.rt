//! The components that an element matches.

ghost use Rattle.std.specs.Prelude.{◌≡◌, ◌++◌, [], ◌∷◌, map, slice_get, OnOk, IfOk};
ghost use Rattle.std.specs.List.{flat_map};
ghost use Rattle.std.specs.Option.{option_map};
ghost use Rattle.ng_hosts.specs.Hosts as spec;
ghost use Rattle.ng_hosts.specs.Index.{IsIndex};
ghost use Rattle.ng_hosts.specs.Index.{component_at as spec_at};

use crate::index::SelectorIndex;
use crate::search::{rising, search};
use ng_ast::{AttrForm, Component, TAttr};
use ng_selectors::Attr;
use ng_values::NgText;
use std::alloc::{AllocError, Global};

/// Whether the tag is `ng-content`, `ng-container` or `ng-template`, whose elements are never a component's host.
pub fn is_reserved(tag: &NgText) -> bool
    ensures { result ≡ spec.is_reserved tag.now }
{
    let tag = tag.as_str();
    tag == "ng-content" || tag == "ng-container" || tag == "ng-template"
}

/// The name of the event of `[(name)]`: `name` with `Change` behind it. The only error is want of memory.
pub fn change_of(alloc: Global, name: &NgText) -> Result<NgText, AllocError>
    ensures { IfOk result (λ change. change ≡ spec.change_of name.now) }
{
    let mut text = String::from_str(alloc, name.as_str())?;
    text.push_str("Change")?;
    NgText::from_string(alloc, text)
}

fn push_counted(name: &NgText, value: &NgText, seen: &mut Vec<Attr>) -> Result<(), AllocError>
    ensures { OnOk result (seen.new.items ≡ seen.old.items ++ spec.counted name.now value.now ∷ []) }
{
    let name = name.copy()?;
    let value = value.copy()?;
    seen.push(Attr { name, value })?;
    Ok(())
}

fn push_seen(
    alloc: Global,
    attr: &TAttr,
    empty: &NgText,
    seen: &mut Vec<Attr>,
) -> Result<(), AllocError>
    requires { empty.now ≡ [] }
    ensures { OnOk result (seen.new.items ≡ seen.old.items ++ spec.seen_form attr.now.name attr.now.form) }
{
    match &attr.form {
        AttrForm::Static(value) => {
            push_counted(&attr.name, value, seen)?;
            Ok(())
        }
        AttrForm::Joined(_) => {
            push_counted(&attr.name, empty, seen)?;
            Ok(())
        }
        AttrForm::Property(_) => {
            push_counted(&attr.name, empty, seen)?;
            Ok(())
        }
        AttrForm::Listener(_) => {
            push_counted(&attr.name, empty, seen)?;
            Ok(())
        }
        AttrForm::Both(_) => {
            let change = change_of(alloc, &attr.name)?;
            push_counted(&attr.name, empty, seen)?;
            push_counted(&change, empty, seen)?;
            Ok(())
        }
        AttrForm::Attribute(_) => Ok(()),
        AttrForm::Class(_) => Ok(()),
        AttrForm::Style(_, _) => Ok(()),
        AttrForm::Reference => Ok(()),
        AttrForm::Variable(_) => Ok(()),
        AttrForm::Outlet(_) => Ok(()),
        AttrForm::Context(_) => Ok(()),
    }
}

/// The attributes of an element that selectors see.
fn seen_attrs(alloc: Global, attrs: &[TAttr]) -> Result<Vec<Attr>, AllocError>
    ensures { IfOk result (λ seen. seen.items ≡ spec.seen_attrs attrs.now) }
{
    let empty = NgText::new(alloc, "")?;
    let mut seen = Vec::new(alloc);
    for attr in attrs {
        push_seen(alloc, attr, &empty, &mut seen)?;
    }
    Ok(seen)
}

/// The positions in `components`, rising, of those whose selector an element of this tag with these attributes matches; the three reserved
/// tags match none. A selector sees the static attributes with their values, and with the empty value the names of interpolated attributes,
/// of bindings to properties, of listeners and of two-way bindings (`[(x)]` as `x` and as `xChange`); it sees no other attribute. The only
/// error is want of memory.
///
/// The element is tried against the alternatives that stand by its attributes, the words of its classes and its tag, and those without a
/// mark. Each alternative stands by the one of its marks that the fewest alternatives bear. So the cost is that of these alternatives,
/// and the logarithm of the matches for each.
pub fn host_positions(
    alloc: Global,
    components: &[&Component],
    index: &SelectorIndex,
    tag: &NgText,
    attrs: &[TAttr],
) -> Result<Vec<usize>, AllocError>
    requires { IsIndex index.now (map (λ c. c.now) components.now) }
    ensures { IfOk result (λ found. found.items ≡ spec.host_positions (map (λ c. c.now) components.now) tag.now attrs.now) }
{
    if is_reserved(tag) {
        return Ok(Vec::new(alloc));
    }
    let seen = seen_attrs(alloc, attrs)?;
    let found = search(alloc, components, index, tag, seen.as_slice())?;
    rising(alloc, &found)
}

fn component_at<'a>(components: &[&'a Component], at: usize) -> Option<&'a Component>
    ensures { option_map (λ c. c.now) result ≡ slice_get (map (λ c. c.now) components.now) at }
{
    match components.get(at) {
        None => None,
        Some(component) => Some(*component),
    }
}

/// Adds the component at a position, if there is one.
fn push_at<'a>(
    components: &[&'a Component],
    at: usize,
    hosts: &mut Vec<&'a Component>,
) -> Result<(), AllocError>
    ensures { OnOk result (map (λ c. c.now) hosts.new.items ≡ map (λ c. c.now) hosts.old.items ++ spec_at (map (λ c. c.now) components.now) at) }
{
    match component_at(components, at) {
        None => Ok(()),
        Some(component) => {
            hosts.push(component)?;
            Ok(())
        }
    }
}

fn push_components<'a>(
    components: &[&'a Component],
    positions: &[usize],
    hosts: &mut Vec<&'a Component>,
) -> Result<(), AllocError>
    ensures { OnOk result (map (λ c. c.now) hosts.new.items ≡ map (λ c. c.now) hosts.old.items ++ flat_map (spec_at (map (λ c. c.now) components.now)) positions.now) }
{
    for at in positions {
        push_at(components, *at, hosts)?;
    }
    Ok(())
}

/// The components that stand at `host_positions`, lent and not copied, at the same cost. The only error is want of memory.
#[tactic(auto, using(crate::proofs::Positions::hosts_at))]
pub fn hosts_of<'a>(
    alloc: Global,
    components: &[&'a Component],
    index: &SelectorIndex,
    tag: &NgText,
    attrs: &[TAttr],
) -> Result<Vec<&'a Component>, AllocError>
    requires { IsIndex index.now (map (λ c. c.now) components.now) }
    ensures { IfOk result (λ hosts. map (λ c. c.now) hosts.items ≡ spec.hosts (map (λ c. c.now) components.now) tag.now attrs.now) }
{
    let positions = host_positions(alloc, components, index, tag, attrs)?;
    let mut hosts = Vec::new(alloc);
    push_components(components, positions.as_slice(), &mut hosts)?;
    Ok(hosts)
}
