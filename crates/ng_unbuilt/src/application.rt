//! The forms of an application that aren't built.

ghost use Rattle.std.specs.Prelude.{◌≡◌, ◌||◌};
ghost use Rattle.std.specs.List.{flat_map};
ghost use Rattle.ng_ast.specs.declared.Decl.TheVariants as decl;
ghost use Rattle.ng_semantics.specs.First as first;
ghost use Rattle.ng_unbuilt.specs.Least.{least_of, least};
ghost use Rattle.ng_unbuilt.specs.Forms as spec;

use crate::least::{earlier, offer};
use crate::tags::is_root_tag;
use crate::template::nodes;
use ng_ast::{App, Component, Decl, Member, MemberKind, One, Place};
use ng_values::{NgText, Value};

fn is_whole(kind: &MemberKind) -> bool
    ensures { result ≡ first.is_whole kind.now }
{
    match kind {
        MemberKind::Field(Value::Int(_)) => true,
        _ => false,
    }
}

fn members(members: &[Member], mut best: Option<Place>) -> Option<Place>
    ensures { result ≡ least_of best (flat_map spec.member_forms members.now) }
{
    for member in members {
        best = offer(!is_whole(&member.kind), member.place, best);
    }
    best
}

fn is_root_name(tag: &Option<NgText>) -> bool
    ensures { result ≡ spec.is_root_name tag.now }
{
    match tag {
        None => false,
        Some(tag) => is_root_tag(tag.as_str()),
    }
}

fn is_root(ones: &[One]) -> bool
    ensures { result ≡ spec.is_root ones.now }
{
    match ones {
        [one] => is_root_name(&one.tag) && one.parts.as_slice().is_empty(),
        _ => false,
    }
}

#[tactic(auto, using(crate::specs::LeastLaws::least_laws))]
fn component(component: &Component, best: Option<Place>) -> Option<Place>
    ensures { result ≡ least_of best (spec.component_forms component.now) }
{
    let unlike = component.onpush || !is_root(component.selector.list.as_slice());
    let best = offer(unlike, component.place, best);
    let best = members(component.members.as_slice(), best);
    nodes(
        component.members.as_slice(),
        component.template.nodes.as_slice(),
        best,
    )
}

fn is_component(declaration: &Decl) -> bool
    ensures { result ≡ spec.is_component declaration.now }
{
    match declaration {
        Decl::Component(_) => true,
        _ => false,
    }
}

// Whether a component stands before what follows a declaration.
fn seen_after(seen: bool, declaration: &Decl) -> bool
    ensures { result ≡ (seen || spec.is_component declaration.now) }
{
    seen || is_component(declaration)
}

fn bootstrap(place: Place, environment: &Option<NgText>, best: Option<Place>) -> Option<Place>
    ensures { result ≡ least_of best (spec.bootstrap_forms place environment.now) }
{
    match environment {
        None => best,
        Some(_) => earlier(best, place),
    }
}

fn first_or_more(found: &Component, seen: bool, best: Option<Place>) -> Option<Place>
    ensures { result ≡ least_of best (spec.decl_forms seen (decl.Component found.now)) }
{
    if seen {
        return earlier(best, found.place);
    }
    component(found, best)
}

fn declaration(declaration: &Decl, seen: bool, best: Option<Place>) -> Option<Place>
    ensures { result ≡ least_of best (spec.decl_forms seen declaration.now) }
{
    match declaration {
        Decl::Component(found) => first_or_more(found, seen, best),
        Decl::Service(service) => earlier(best, service.place),
        Decl::Pipe(pipe) => earlier(best, pipe.place),
        Decl::Environment(environment) => earlier(best, environment.place),
        Decl::Token(place, _) => earlier(best, *place),
        Decl::Bootstrap(place, _, environment) => bootstrap(*place, environment, best),
    }
}

/// The least place, by its byte, of a form that `run` can't run yet, or nothing. It is that of the smallest declaration, member, node of
/// a template, attribute or interpolation that holds the form. What can be run is one component and a `bootstrap` of it: its selector is
/// one tag with a dash, its members are fields with whole numbers, and its template has elements and texts that show fields, and set them
/// at clicks. That the place is the least is this project's own rule.
///
/// It takes no memory. The time is linear in the application, and for each name in the template in the members of its component.
pub fn unbuilt(app: &App) -> Option<Place>
    ensures { result ≡ least (spec.forms app.now) }
{
    let mut best = None;
    let mut seen = false;
    for one in app.decls.as_slice() {
        best = declaration(one, seen, best);
        seen = seen_after(seen, one);
    }
    best
}
