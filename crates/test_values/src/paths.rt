//! Paths and sites: their texts, their order, and maps by them.

ghost use Rattle.ng_tree.specs.Texts.{HasNames};

use indexmap::IndexMap;
use ng_ast::{App, Decl, Environment, Place};
use ng_tree::{
    Item, ListOf, Names, NodeId, Path, Site, Step, compare, names_of, path_text, site_text,
};
use ng_values::{NgText, Value};
use sqlite_items::Items;
use std::alloc::{AllocError, Global};
use std::cmp::Ordering;
use std::test::Fail;

fn one(alloc: Global, step: Step) -> Result<Path, AllocError> {
    Ok(Path::of(vec![in alloc; step]?))
}

// Into a component, a branch, two rows and an outlet.
fn long(alloc: Global) -> Result<Path, AllocError> {
    let text = Value::Text(NgText::new(alloc, "a")?);
    Ok(Path::of(vec![in alloc;
        Step::Child(0),
        Step::Branch(3, 1),
        Step::Row(2, text, 0),
        Step::Row(12, Value::Int(-5), 1),
        Step::Outlet(4, 6),
    ]?))
}

#[test]
fn a_path_has_its_text(rt: HostRuntime) -> Result<(), Fail> {
    let alloc = rt.alloc();
    let copy = long(alloc)?.copy(alloc)?.copy(alloc)?;
    assert_eq!(rt;
        path_text(alloc, &copy)?.as_slice(),
        b"./0/3?1/2[\"a\"]/12[-5#1]/4!6".as_slice()
    );
    Ok(())
}

// An application of an environment and a token.
fn app(alloc: Global) -> Result<App, AllocError> {
    let place = Place {
        line: 1,
        column: 1,
        byte: 0,
    };
    let environment = Environment {
        place,
        name: NgText::new(alloc, "e")?,
        under: None,
        provides: Items::new(alloc),
    };
    let mut decls = Items::new(alloc);
    decls.push(Decl::Environment(environment))?;
    decls.push(Decl::Token(place, NgText::new(alloc, "T")?))?;
    Ok(App { decls })
}

fn site_is(alloc: Global, names: &Names, site: Site, want: &str) -> Result<bool, AllocError>
    requires { HasNames names.now site }
{
    Ok(site_text(alloc, &site, names)?.as_slice() == want.as_bytes())
}

#[test]
fn sites_of_the_page_have_their_texts(rt: HostRuntime) -> Result<(), Fail> {
    let alloc = rt.alloc();
    let names = names_of(alloc, &app(alloc)?)?;
    let component = Site::Component(one(alloc, Step::Child(10))?);
    assert!(rt; site_is(alloc, &names, component, "./10")?);
    let host = Site::Element(NodeId::Root);
    assert!(rt; site_is(alloc, &names, host, "^")?);
    let node = Site::Element(NodeId::At(one(alloc, Step::Child(0))?, 7));
    assert!(rt; site_is(alloc, &names, node, "./0:7")?);
    Ok(())
}

#[test]
fn what_is_provided_has_its_text(rt: HostRuntime) -> Result<(), Fail> {
    let alloc = rt.alloc();
    let names = names_of(alloc, &app(alloc)?)?;
    assert!(rt; names.tokens.len() == 1);
    assert!(rt; names.environments.len() == 2);
    let service = Site::Service(one(alloc, Step::Child(0))?, true, 0);
    assert!(rt; site_is(alloc, &names, service, "./0 viewprovide T")?);
    assert!(rt; site_is(alloc, &names, Site::Env(1, 0), "env root T")?);
    Ok(())
}

#[test]
fn paths_go_by_number_and_then_by_variant(rt: HostRuntime) -> Result<(), Fail> {
    let alloc = rt.alloc();
    let nine = one(alloc, Step::Child(9))?;
    let ten = one(alloc, Step::Child(10))?;
    assert!(rt; nine < ten);
    let branch = one(alloc, Step::Branch(9, 0))?;
    assert_eq!(rt; compare(&branch, &nine), Ordering::Greater);
    assert_eq!(rt; compare(&Path::of(Vec::new(alloc)), &nine), Ordering::Less);
    let low = one(alloc, Step::Row(9, Value::Int(2), 5))?;
    let high = one(alloc, Step::Row(9, Value::Int(10), 0))?;
    assert_eq!(rt; compare(&low, &high), Ordering::Less);
    Ok(())
}

#[test]
fn a_node_is_a_key(rt: HostRuntime) -> Result<(), Fail> {
    let alloc = rt.alloc();
    let id = NodeId::At(long(alloc)?, 3);
    let mut nodes = IndexMap::new(alloc);
    nodes.insert(id.copy(alloc)?, 1u8)?;
    assert_eq!(rt; nodes.get(&id).copied(), Some(1));
    assert_eq!(rt; nodes.get(&NodeId::Root).copied(), None);
    Ok(())
}

#[test]
fn a_site_is_a_key(rt: HostRuntime) -> Result<(), Fail> {
    let alloc = rt.alloc();
    let item = Item::Site(Site::Element(NodeId::At(long(alloc)?, 3)));
    let mut sites = IndexMap::new(alloc);
    if let Item::Site(site) = item.copy(alloc)? {
        sites.insert(site, 2u8)?;
    }
    if let Item::Site(site) = &item {
        assert_eq!(rt; sites.get(site).copied(), Some(2));
    }
    Ok(())
}
