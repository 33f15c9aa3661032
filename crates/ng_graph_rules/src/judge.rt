//! The breaks at nodes that reach themselves.

ghost use Rattle.std.specs.Prelude.{◌≡◌, [], ◌∷◌, ◌++◌, List, false, slice_index_or, bytes_eq, IfOk, OnOk};
ghost use Rattle.std.specs.HashMap.{get};
ghost use Rattle.ng_ast.specs.declared.refusals.Rule.TheVariants as rule;
ghost use Rattle.ng_breaks.specs.Least.{least_of};
ghost use Rattle.ng_scopes.specs.Declarations.{member_scope};
ghost use Rattle.ng_graph_rules.specs.CycleRules as spec;

use crate::decl_rows::{environment_graph, pipe_graph};
use crate::getters::getter_graph;
use ng_ast::{Decl, Member, Refusal, Rule};
use ng_breaks::offer;
use ng_graph::cycles;
use ng_parts::{Declared, Site, index_of, one_more, push_site};
use ng_values::NgText;
use sqlite_items::Items;
use std::alloc::{AllocError, Global};
use std::collections::HashMap;

fn answer_at(answers: &[bool], at: usize) -> bool
    ensures { result ≡ slice_index_or answers.now at false }
{
    match answers.get(at) {
        Some(answer) => *answer,
        None => false,
    }
}

fn offer_told(
    rule: Rule,
    answers: &[bool],
    sites: &[Site],
    best: &mut Option<Refusal>,
) -> Result<(), AllocError>
    ensures { OnOk result (best.new ≡ least_of best.old (spec.told_from rule answers.now 0 sites.now)) }
{
    let mut at = 0;
    for site in sites {
        offer(answer_at(answers, at), rule, site.place, &site.name, best)?;
        at = one_more(at)?;
    }
    Ok(())
}

/// Takes the breaks of a rule at the nodes of a graph that reach themselves.
fn judge_graph(
    alloc: Global,
    rule: Rule,
    graph: &[Items<usize>],
    sites: &[Site],
    best: &mut Option<Refusal>,
) -> Result<(), AllocError>
    ensures { OnOk result (spec.TakesCycles rule graph.now sites.now best.old best.new) }
{
    let answers = cycles(alloc, graph)?;
    offer_told(rule, answers.as_slice(), sites, best)?;
    Ok(())
}

fn push_decl(decl: &Decl, sites: &mut Vec<Site>) -> Result<(), AllocError>
    ensures { OnOk result (sites.new.items ≡ sites.old.items ++ spec.decl_site decl.now ∷ []) }
{
    match decl {
        Decl::Component(component) => {
            push_site(component.place, &component.name, sites)?;
            Ok(())
        }
        Decl::Service(service) => {
            push_site(service.place, &service.name, sites)?;
            Ok(())
        }
        Decl::Pipe(pipe) => {
            push_site(pipe.place, &pipe.name, sites)?;
            Ok(())
        }
        Decl::Environment(environment) => {
            push_site(environment.place, &environment.name, sites)?;
            Ok(())
        }
        Decl::Token(place, name) => {
            push_site(*place, name, sites)?;
            Ok(())
        }
        Decl::Bootstrap(place, name, _) => {
            push_site(*place, name, sites)?;
            Ok(())
        }
    }
}

fn decl_sites(alloc: Global, decls: &[Decl]) -> Result<Vec<Site>, AllocError>
    ensures { IfOk result (λ sites. sites.items ≡ spec.decl_sites decls.now) }
{
    let mut sites = Vec::new(alloc);
    for decl in decls {
        push_decl(decl, &mut sites)?;
    }
    Ok(sites)
}

fn member_sites(alloc: Global, members: &[Member]) -> Result<Vec<Site>, AllocError>
    ensures { IfOk result (λ sites. sites.items ≡ spec.member_sites members.now) }
{
    let mut sites = Vec::new(alloc);
    for member in members {
        push_site(member.place, &member.name, &mut sites)?;
    }
    Ok(sites)
}

/// Takes the pipes that reach themselves.
fn judge_pipes(
    alloc: Global,
    index: &HashMap<NgText, Declared>,
    decls: &[Decl],
    sites: &[Site],
    best: &mut Option<Refusal>,
) -> Result<(), AllocError>
    ensures { OnOk result (spec.TakesCycles rule.N09 (spec.pipe_graph (get bytes_eq index.now) decls.now) sites.now best.old best.new) }
{
    let graph = pipe_graph(alloc, index, decls)?;
    judge_graph(alloc, Rule::N09, graph.as_slice(), sites, best)?;
    Ok(())
}

/// Takes the environments that stand under themselves.
fn judge_environments(
    alloc: Global,
    index: &HashMap<NgText, Declared>,
    decls: &[Decl],
    sites: &[Site],
    best: &mut Option<Refusal>,
) -> Result<(), AllocError>
    ensures { OnOk result (spec.TakesCycles rule.N23 (spec.environment_graph (get bytes_eq index.now) decls.now) sites.now best.old best.new) }
{
    let graph = environment_graph(alloc, index, decls)?;
    judge_graph(alloc, Rule::N23, graph.as_slice(), sites, best)?;
    Ok(())
}

/// Takes the getters among these members that reach themselves.
fn judge_members(
    alloc: Global,
    members: &[Member],
    best: &mut Option<Refusal>,
) -> Result<(), AllocError>
    ensures { OnOk result (spec.TakesCycles rule.N10 (spec.getter_graph (member_scope members.now) members.now) (spec.member_sites members.now) best.old best.new) }
{
    let graph = getter_graph(alloc, members)?;
    let sites = member_sites(alloc, members)?;
    judge_graph(alloc, Rule::N10, graph.as_slice(), sites.as_slice(), best)?;
    Ok(())
}

fn members_of(decl: &Decl) -> &[Member]
    ensures { result.now ≡ spec.members_of decl.now }
{
    match decl {
        Decl::Component(component) => component.members.as_slice(),
        Decl::Service(service) => service.members.as_slice(),
        Decl::Pipe(_) => &[],
        Decl::Environment(_) => &[],
        Decl::Token(_, _) => &[],
        Decl::Bootstrap(_, _, _) => &[],
    }
}

/// Takes the getters of all declarations that reach themselves.
fn judge_getters(
    alloc: Global,
    decls: &[Decl],
    best: &mut Option<Refusal>,
) -> Result<(), AllocError>
    ensures { OnOk result (spec.TakesGetterCycles decls.now best.old best.new) }
{
    for decl in decls {
        judge_members(alloc, members_of(decl), best)?;
    }
    Ok(())
}

/// Takes the breaks of N09, N10 and N23: a declared pipe whose value names, through any number of declared pipes, the pipe itself; a
/// getter that names itself so through own getters of its component or service; and an environment that stands under itself, where one
/// without `under` stands under `root`. The break stands at the declaration or the getter, with its name. What is taken goes into `best`;
/// the only error is want of memory. These rules are this project's own.
///
/// The time is that of one search for each pipe, environment and getter over what it reaches, and of a mark for each declaration or
/// member in each of these searches.
pub fn judge_cycles(
    alloc: Global,
    decls: &[Decl],
    best: &mut Option<Refusal>,
) -> Result<(), AllocError>
    ensures { OnOk result (spec.TakesCycleBreaks decls.now best.old best.new) }
{
    let index = index_of(alloc, decls)?;
    let sites = decl_sites(alloc, decls)?;
    judge_pipes(alloc, &index, decls, sites.as_slice(), best)?;
    judge_getters(alloc, decls, best)?;
    judge_environments(alloc, &index, decls, sites.as_slice(), best)?;
    Ok(())
}

/// A law, with nothing to run: declarations have one list of breaks of the rules on cycles, so `judge_cycles` takes that list and no other.
pub fn one_list_of_cycle_breaks()
    ensures { spec.CycleBreaksAreOne }
{}
