//! The rules on declarations.

ghost use Rattle.std.specs.Prelude.{◌≡◌, ◌++◌, ◌||◌, drop, bytes_eq, codes, not, OnOk, IfOk};
ghost use Rattle.std.specs.HashMap.{get};
ghost use Rattle.std.specs.List.{flat_map, list_any};
ghost use Rattle.std.specs.Option.{option_copied};
ghost use Rattle.ng_ast.specs.declared.refusals.Rule.TheVariants as rule;
ghost use Rattle.ng_parts.specs.Entries.{IsIndex, named};
ghost use Rattle.ng_parts.specs.Sites.{repeats};
ghost use Rattle.ng_decl_rules.specs.DeclRules as spec;
ghost use Rattle.ng_breaks.specs.Least.{broken, least_of, of_rule};
ghost use Rattle.ng_breaks.specs.NameRules.{usage_breaks};

use crate::member_rules::{is_environment, judge_members, judge_parameters, judge_provider};
use ng_ast::{
    Component, Decl, Environment, Member, MemberKind, One, Place, Provider, Refusal, Rule,
};
use ng_breaks::{judge_repeats, judge_usage, offer, offer_all, offer_word};
use ng_parts::{Declared, Site, index_of, push_site};
use ng_scopes::{Usage, decl_usages};
use ng_values::NgText;
use std::alloc::{AllocError, Global};
use std::collections::HashMap;

fn is_required(kind: &MemberKind) -> bool
    ensures { result ≡ spec.is_required kind.now }
{
    match kind {
        MemberKind::Input(required, _) => *required,
        MemberKind::Field(_) => false,
        MemberKind::Signal(_) => false,
        MemberKind::Getter(_) => false,
        MemberKind::Method(_, _) => false,
        MemberKind::Init(_) => false,
        MemberKind::Inject(_, _) => false,
        MemberKind::Output => false,
        MemberKind::Provide(_) => false,
        MemberKind::ViewProvide(_) => false,
        MemberKind::Query(_, _, _) => false,
    }
}

fn has_tag(ones: &[One]) -> bool
    ensures { result ≡ spec.has_tag ones.now }
{
    match ones {
        [] => false,
        [one, ..] => one.tag.is_some(),
    }
}

fn requires_input(members: &[Member]) -> bool
    ensures { result ≡ list_any (λ m. spec.is_required m.kind) members.now }
{
    members.iter().any(|member| is_required(&member.kind))
}

fn can_start(component: &Component) -> bool
    ensures { result ≡ spec.can_start component.now }
{
    has_tag(component.selector.list.as_slice()) && !requires_input(component.members.as_slice())
}

fn starts_decl(decl: Option<&Decl>) -> bool
    ensures { result ≡ spec.starts_decl (option_copied decl.entry) }
{
    match decl {
        Some(Decl::Component(component)) => can_start(component),
        Some(Decl::Service(_)) => false,
        Some(Decl::Pipe(_)) => false,
        Some(Decl::Environment(_)) => false,
        Some(Decl::Token(_, _)) => false,
        Some(Decl::Bootstrap(_, _, _)) => false,
        None => false,
    }
}

fn starts_at(decls: &[Decl], declared: Option<&Declared>) -> bool
    ensures { result ≡ spec.starts_at decls.now (option_copied declared.entry) }
{
    match declared {
        None => false,
        Some(declared) => starts_decl(decls.get(declared.at)),
    }
}

fn push_declared(decl: &Decl, sites: &mut Vec<Site>) -> Result<(), AllocError>
    ensures { OnOk result (sites.new.items ≡ sites.old.items ++ spec.declared_site decl.now) }
{
    match decl {
        Decl::Component(component) => {
            push_site(component.place, &component.name, sites)?;
            Ok(())
        }
        Decl::Service(service) => {
            push_site(service.place, &service.name, sites)?;
            Ok(())
        }
        Decl::Pipe(pipe) => {
            push_site(pipe.place, &pipe.name, sites)?;
            Ok(())
        }
        Decl::Environment(environment) => {
            push_site(environment.place, &environment.name, sites)?;
            Ok(())
        }
        Decl::Token(place, name) => {
            push_site(*place, name, sites)?;
            Ok(())
        }
        Decl::Bootstrap(_, _, _) => Ok(()),
    }
}

fn declared_sites(alloc: Global, decls: &[Decl]) -> Result<Vec<Site>, AllocError>
    ensures { IfOk result (λ sites. sites.items ≡ spec.declared_sites decls.now) }
{
    let mut sites = Vec::new(alloc);
    for decl in decls {
        push_declared(decl, &mut sites)?;
    }
    Ok(sites)
}

fn push_boot(decl: &Decl, sites: &mut Vec<Site>) -> Result<(), AllocError>
    ensures { OnOk result (sites.new.items ≡ sites.old.items ++ spec.boot_site decl.now) }
{
    match decl {
        Decl::Bootstrap(place, name, _) => {
            push_site(*place, name, sites)?;
            Ok(())
        }
        Decl::Component(_) => Ok(()),
        Decl::Service(_) => Ok(()),
        Decl::Pipe(_) => Ok(()),
        Decl::Environment(_) => Ok(()),
        Decl::Token(_, _) => Ok(()),
    }
}

fn boots(alloc: Global, decls: &[Decl]) -> Result<Vec<Site>, AllocError>
    ensures { IfOk result (λ sites. sites.items ≡ spec.boots decls.now) }
{
    let mut sites = Vec::new(alloc);
    for decl in decls {
        push_boot(decl, &mut sites)?;
    }
    Ok(sites)
}

fn judge_boots(
    index: &HashMap<NgText, Declared>,
    decls: &[Decl],
    boots: &[Site],
    best: &mut Option<Refusal>,
) -> Result<(), AllocError>
    ensures { OnOk result (best.new ≡ least_of best.old (flat_map (λ s. broken (not (spec.starts_at decls.now (get bytes_eq index.now s.name))) rule.N01 s.place s.name) boots.now)) }
{
    for boot in boots {
        let started = starts_at(decls, index.get(&boot.name));
        offer(!started, Rule::N01, boot.place, &boot.name, best)?;
    }
    Ok(())
}

fn judge_root(
    alloc: Global,
    index: &HashMap<NgText, Declared>,
    decls: &[Decl],
    boots: &[Site],
    best: &mut Option<Refusal>,
) -> Result<(), AllocError>
    requires { IsIndex index.now decls.now }
    ensures { OnOk result (best.new ≡ least_of best.old (spec.root_breaks decls.now boots.now)) }
{
    if boots.is_empty() {
        let place = Place {
            line: 1,
            column: 1,
            byte: 0,
        };
        offer_word(alloc, true, Rule::N01, place, "app", best)?;
        return Ok(());
    }
    judge_boots(index, decls, boots, best)?;
    Ok(())
}

fn judge_environment(
    index: &HashMap<NgText, Declared>,
    place: Place,
    name: &Option<NgText>,
    best: &mut Option<Refusal>,
) -> Result<(), AllocError>
    ensures { OnOk result (best.new ≡ least_of best.old (spec.environment_breaks (get bytes_eq index.now) place name.now)) }
{
    match name {
        None => Ok(()),
        Some(name) => {
            let known = is_environment(index.get(name)) || name.as_str() == "root";
            offer(!known, Rule::N24, place, name, best)?;
            Ok(())
        }
    }
}

fn judge_provides(
    index: &HashMap<NgText, Declared>,
    provides: &[(Place, Provider)],
    best: &mut Option<Refusal>,
) -> Result<(), AllocError>
    ensures { OnOk result (best.new ≡ least_of best.old (spec.provide_breaks (get bytes_eq index.now) provides.now)) }
{
    for provide in provides {
        judge_provider(index, provide.0, &provide.1, best)?;
    }
    Ok(())
}

#[tactic(auto, using(ng_breaks::specs::LeastLaws::least_laws))]
fn judge_under(
    index: &HashMap<NgText, Declared>,
    environment: &Environment,
    best: &mut Option<Refusal>,
) -> Result<(), AllocError>
    ensures { OnOk result (best.new ≡ least_of best.old (spec.environment_breaks (get bytes_eq index.now) environment.now.place environment.now.under ++ spec.provide_breaks (get bytes_eq index.now) environment.now.provides)) }
{
    judge_environment(index, environment.place, &environment.under, best)?;
    judge_provides(index, environment.provides.as_slice(), best)?;
    Ok(())
}

fn judge_decl(
    alloc: Global,
    index: &HashMap<NgText, Declared>,
    decl: &Decl,
    best: &mut Option<Refusal>,
) -> Result<(), AllocError>
    ensures { OnOk result (best.new ≡ least_of best.old (spec.decl_breaks (get bytes_eq index.now) decl.now)) }
{
    match decl {
        Decl::Component(component) => {
            judge_members(alloc, index, component.members.as_slice(), best)?;
            Ok(())
        }
        Decl::Service(service) => {
            judge_members(alloc, index, service.members.as_slice(), best)?;
            Ok(())
        }
        Decl::Pipe(pipe) => {
            judge_parameters(alloc, pipe.place, pipe.params.as_slice(), best)?;
            Ok(())
        }
        Decl::Environment(environment) => {
            judge_under(index, environment, best)?;
            Ok(())
        }
        Decl::Token(_, _) => Ok(()),
        Decl::Bootstrap(place, _, environment) => {
            judge_environment(index, *place, environment, best)?;
            Ok(())
        }
    }
}

fn decl_name(decl: &Decl) -> &NgText
    ensures { result.now ≡ spec.decl_name decl.now }
{
    match decl {
        Decl::Component(component) => &component.name,
        Decl::Service(service) => &service.name,
        Decl::Pipe(pipe) => &pipe.name,
        Decl::Environment(environment) => &environment.name,
        Decl::Token(_, name) => name,
        Decl::Bootstrap(_, name, _) => name,
    }
}

fn judge_usages(
    index: &HashMap<NgText, Declared>,
    owner: &NgText,
    usages: &[Usage],
    best: &mut Option<Refusal>,
) -> Result<(), AllocError>
    ensures { OnOk result (best.new ≡ least_of best.old (flat_map (λ u. usage_breaks (get bytes_eq index.now u.name) owner.now u) usages.now)) }
{
    for usage in usages {
        judge_usage(index.get(&usage.name), owner, usage, best)?;
    }
    Ok(())
}

fn judge_names(
    alloc: Global,
    index: &HashMap<NgText, Declared>,
    decl: &Decl,
    best: &mut Option<Refusal>,
) -> Result<(), AllocError>
    ensures { OnOk result (best.new ≡ least_of best.old (spec.names_breaks (get bytes_eq index.now) decl.now)) }
{
    let usages = decl_usages(alloc, decl)?;
    judge_usages(index, decl_name(decl), usages.as_slice(), best)?;
    Ok(())
}

#[tactic(auto, using(ng_breaks::specs::LeastLaws::least_laws))]
fn judge_each(
    alloc: Global,
    index: &HashMap<NgText, Declared>,
    decl: &Decl,
    best: &mut Option<Refusal>,
) -> Result<(), AllocError>
    ensures { OnOk result (best.new ≡ least_of best.old (spec.each_breaks (get bytes_eq index.now) decl.now)) }
{
    judge_decl(alloc, index, decl, best)?;
    judge_names(alloc, index, decl, best)?;
    Ok(())
}

fn judge_all(
    alloc: Global,
    index: &HashMap<NgText, Declared>,
    decls: &[Decl],
    best: &mut Option<Refusal>,
) -> Result<(), AllocError>
    ensures { OnOk result (best.new ≡ least_of best.old (flat_map (spec.each_breaks (get bytes_eq index.now)) decls.now)) }
{
    for decl in decls {
        judge_each(alloc, index, decl, best)?;
    }
    Ok(())
}

fn judge_entries(
    alloc: Global,
    decls: &[Decl],
    best: &mut Option<Refusal>,
) -> Result<(), AllocError>
    ensures { OnOk result (best.new ≡ least_of best.old (of_rule rule.N02 (repeats (spec.declared_sites decls.now)))) }
{
    let names = declared_sites(alloc, decls)?;
    judge_repeats(alloc, names.as_slice(), best)?;
    Ok(())
}

fn judge_second(boots: &[Site], best: &mut Option<Refusal>) -> Result<(), AllocError>
    ensures { OnOk result (best.new ≡ least_of best.old (of_rule rule.N02 (drop 1 boots.now))) }
{
    match boots {
        [] => Ok(()),
        [_, rest @ ..] => {
            offer_all(Rule::N02, rest, best)?;
            Ok(())
        }
    }
}

/// Takes the breaks of the rules on declarations, and of the rules on names at every name that stands in `decls`. What is taken goes into
/// `best`; the only error is want of memory. The rules on declarations, each with its definition in `specs/`, are:
///
/// - N01: there is no `bootstrap`, or one names no component, or one whose first selector gives no tag, or one with a required input;
/// - N02: a declaration, a second `bootstrap`, a member, an `init` or a parameter repeats a name;
/// - N20 and N22: the token of an `inject` or of a provider is none, or a provider isn't one for its token;
/// - N21: flags of an `inject` that clash; N24: an environment that isn't there; N29: the component of a query isn't declared.
///
/// What they speak of is after Angular's dependency injection (<https://angular.dev/guide/di>) and queries
/// (<https://angular.dev/guide/components/queries>); the rules as they are divided and numbered are this project's own.
///
/// The time is linear in the text of the declarations, times the depth of their views.
#[tactic(auto, using(ng_breaks::specs::LeastLaws::least_laws))]
pub fn judge_declarations(
    alloc: Global,
    decls: &[Decl],
    best: &mut Option<Refusal>,
) -> Result<(), AllocError>
    ensures { OnOk result (best.new ≡ least_of best.old (spec.declaration_breaks decls.now)) }
{
    let index = index_of(alloc, decls)?;
    let boots = boots(alloc, decls)?;
    judge_entries(alloc, decls, best)?;
    judge_root(alloc, &index, decls, boots.as_slice(), best)?;
    judge_second(boots.as_slice(), best)?;
    judge_all(alloc, &index, decls, best)?;
    Ok(())
}
