ghost use Rattle.std.specs.Prelude.{◌≡◌, IfOk, IsTrue, option_and_then};
ghost use Rattle.std.specs.Str.{bytes_eq};
ghost use Rattle.ng_ast.specs.declared.Component.{Component as Component'};
ghost use Rattle.ng_semantics.specs.Declared.{tag_of, component_in};
ghost use Rattle.ng_semantics.specs.Template.{nesting, in_order};
ghost use Rattle.ng_semantics.specs.Html.{html};
ghost use Rattle.ng_semantics.specs.First.{IsAlone, IsFirst, are_first_nodes};
ghost use Rattle.ng_update.specs.Fields.{world_of, names_in};
ghost use Rattle.ng_update.specs.Clicked.{attributes_among, clicked, outcome_in};
ghost use Rattle.ng_update.specs.Running.{page_of, click_on, Starts};

use crate::click::{attributes_of, click_listener, run};
use crate::fields::{Field, initial};
use crate::page::{write_end, write_nodes, write_start};
use ng_ast::{App, Component, Decl, TNode};
use ng_values::Fault;
use std::alloc::{AllocError, Global};
use std::marker::Model;

// Elements nest less deep than this.
const NESTING: u32 = 33;

/// What came of an event.
#[derive(Debug, Drop)]
pub enum Delivered {
    /// The statements of the listener ran.
    Ran,
    /// A statement had this fault. What the statements before it wrote stays.
    Fault(Fault),
    /// The page has no element of the tag.
    NoTarget,
    /// The element doesn't listen for the event.
    NoListener,
}

/// A running application of the first form.
#[derive(Drop)]
pub struct FlatEngine {
    alloc: Global,
    component: Component,
    fields: Vec<Field>,
}

impl Model for FlatEngine {
    ghost use Rattle.ng_update.specs.Running.{Running, running_code, IsSound};
    ghost use Rattle.ng_update.specs.Fields.{world_of};

    ghost Value = { Running };

    ghost coded = { running_code };

    ghost view = { λ e. record { component = e.component; world = world_of e.fields.items } };

    ghost invariant = { λ e. IsSound e.component e.fields.items };
}

impl FlatEngine {
    /// Starts an application of the first form, whose fields then hold their initial values. The one error is want of
    /// memory.
    pub fn start(alloc: Global, app: App) -> Result<FlatEngine, AllocError>
        requires first { (c : Component') × IsAlone app c × IsFirst c }
        ensures ok { IfOk result (Starts app) }
    {
        let component = component_of(app);
        let fields = initial(alloc, component.members.as_slice())?;
        Ok(FlatEngine {
            alloc,
            component,
            fields,
        })
    }

    /// Clicks on the first element of a tag, in document order; the root's host, which has no listener, is the first of
    /// all. The statements of the element's listener act one after another: the first fault ends them, and what was
    /// written before it stays. Takes no memory. The cost is that of a walk over the template, and for each statement
    /// of a search through the fields. Which element is meant and what a fault leaves are this project's own rules.
    pub fn click(&mut self, tag: &str) -> Delivered
        ensures outcome { outcome_in result ≡ (click_on self.old tag.now).outcome }
        ensures world { self.new.world ≡ (click_on self.old tag.now).world }
        ensures component { self.new.component ≡ self.old.component }
    {
        if is_root(&self.component, tag) {
            return Delivered::NoListener;
        }
        let nodes = self.component.template.nodes.as_slice();
        click_in(nodes, tag, self.fields.as_mut_slice())
    }

    /// The page over what the fields hold, as bytes of UTF-8. Texts are escaped (`&`, `<`, `>`) as the HTML Living
    /// Standard serializes them. The one error is want of memory. The cost is that of the bytes and, for each
    /// interpolation, of a search through the fields.
    pub fn page(&self) -> Result<Vec<u8>, AllocError>
        ensures { IfOk result (λ bytes. bytes.items ≡ html (page_of self.now)) }
    {
        let mut out = Vec::new(self.alloc);
        let tag = root_tag(&self.component);
        write_start(&mut out, tag)?;
        let nodes = self.component.template.nodes.as_slice();
        write_nodes(&mut out, NESTING, nodes, self.fields.as_slice())?;
        write_end(&mut out, tag)?;
        Ok(out)
    }
}

// The component of an application that has one.
fn component_of(app: App) -> Component
    requires { (c : Component') × IsAlone app c }
    ensures { (c : Component') → IsAlone app c → result ≡ c }
{
    let App { mut decls } = app;
    match component_in(decls.pop()) {
        Some(component) => component,
        None => match component_in(decls.pop()) {
            Some(component) => component,
            None => unreachable!(),
        },
    }
}

fn component_in(decl: Option<Decl>) -> Option<Component>
    ensures { result ≡ option_and_then component_in decl }
{
    match decl {
        Some(Decl::Component(component)) => Some(component),
        _ => None,
    }
}

// The tag of the root's host.
fn root_tag(component: &Component) -> &str
    ensures { result.now ≡ tag_of component.now }
{
    match component.selector.list.get(0) {
        Some(one) => match &one.tag {
            Some(tag) => tag.as_str(),
            None => "",
        },
        None => "",
    }
}

fn is_root(component: &Component, tag: &str) -> bool
    ensures { result ≡ bytes_eq tag.now (tag_of component.now) }
{
    tag == root_tag(component)
}

// A click on the first element of a tag among nodes and the nodes inside them.
fn click_in(nodes: &[TNode], tag: &str, fields: &mut [Field]) -> Delivered
    requires { IsTrue (are_first_nodes (names_in fields.old) nesting nodes.now) }
    ensures result { record { outcome = outcome_in result; world = world_of fields.new } ≡ clicked (world_of fields.old) (attributes_among tag.now (in_order nesting nodes.now)) }
    ensures names { names_in fields.new ≡ names_in fields.old }
{
    match attributes_of(nodes, NESTING, tag) {
        None => Delivered::NoTarget,
        Some(attributes) => match click_listener(attributes) {
            None => Delivered::NoListener,
            Some(statements) => match run(statements, fields) {
                Ok(()) => Delivered::Ran,
                Err(fault) => Delivered::Fault(fault),
            },
        },
    }
}
