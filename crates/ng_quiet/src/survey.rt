//! What the names in an application say.

ghost use Rattle.std.specs.Prelude.{◌≡◌, ◌++◌, ◌||◌, map, bytes_eq, OnOk, IfOk};
ghost use Rattle.std.specs.List.{list_any, list_all};
ghost use Rattle.std.specs.HashSet.{contains};
ghost use Rattle.ng_scopes.specs.Declarations.{decl_usages as usages_of};
ghost use Rattle.ng_hosts.specs.Hosts.{Name, component_in, components};
ghost use Rattle.ng_quiet.specs.Quiet as spec;

use ng_ast::Decl;
use ng_scopes::{Act, Meaning, Part, Sort, Usage, decl_usages};
use ng_values::NgText;
use std::alloc::{AllocError, Global};
use std::collections::HashSet;

/// What the names in an application say.
#[derive(Drop)]
pub(crate) struct Survey {
    /// For each component whether its bindings and getters read what they may alone.
    pub(crate) steady: Vec<bool>,
    /// The names of the methods that are called through an injected name, a reference or a query.
    pub(crate) called: HashSet<NgText>,
}

fn is_judged(part: Part) -> bool
    ensures { result ≡ spec.is_judged part }
{
    match part {
        Part::Binding => true,
        Part::Getter => true,
        Part::Listener => false,
        Part::Method => false,
        Part::Init => false,
        Part::Pipe => false,
    }
}

fn is_own(sort: Sort) -> bool
    ensures { result ≡ spec.is_own sort }
{
    match sort {
        Sort::Input => true,
        Sort::Field => true,
        Sort::Getter => true,
        Sort::Signal => true,
        Sort::Method => false,
        Sort::Inject => false,
        Sort::Output => false,
        Sort::Query => false,
    }
}

fn is_steady(meaning: Option<Meaning>) -> bool
    ensures { result ≡ spec.is_steady meaning }
{
    match meaning {
        Some(Meaning::Member(sort, _)) => is_own(sort),
        Some(Meaning::Variable) => true,
        Some(Meaning::Let) => true,
        Some(Meaning::Ahead) => true,
        Some(Meaning::Parameter) => false,
        Some(Meaning::Reference) => false,
        Some(Meaning::Template) => false,
        None => false,
    }
}

fn is_inject(sort: Sort) -> bool
    ensures { result ≡ spec.is_inject sort }
{
    matches!(sort, Sort::Inject)
}

fn is_query(sort: Sort) -> bool
    ensures { result ≡ spec.is_query sort }
{
    matches!(sort, Sort::Query)
}

fn is_injected(meaning: Option<Meaning>) -> bool
    ensures { result ≡ spec.is_injected meaning }
{
    match meaning {
        Some(Meaning::Member(sort, _)) => is_inject(sort),
        Some(Meaning::Variable) => false,
        Some(Meaning::Let) => false,
        Some(Meaning::Ahead) => false,
        Some(Meaning::Parameter) => false,
        Some(Meaning::Reference) => false,
        Some(Meaning::Template) => false,
        None => false,
    }
}

/// Whether the meaning is an injected name, a reference or a query.
fn leads_out(meaning: Option<Meaning>) -> bool
    ensures { result ≡ spec.leads_out meaning }
{
    match meaning {
        Some(Meaning::Member(sort, _)) => is_inject(sort) || is_query(sort),
        Some(Meaning::Reference) => true,
        Some(Meaning::Template) => true,
        Some(Meaning::Variable) => false,
        Some(Meaning::Let) => false,
        Some(Meaning::Ahead) => false,
        Some(Meaning::Parameter) => false,
        None => false,
    }
}

fn may_stand(act: &Act, meaning: Option<Meaning>) -> bool
    ensures { result ≡ spec.may_stand act.now meaning }
{
    match act {
        Act::Read => is_steady(meaning),
        Act::Asked => is_steady(meaning) || is_injected(meaning),
        Act::Called(_) => is_steady(meaning),
        Act::Piped(_) => true,
        Act::Outlet => true,
        Act::Set => true,
        Act::Done(_) => true,
        Act::Sent(_, _, _) => true,
    }
}

fn is_fine(usage: &Usage) -> bool
    ensures { result ≡ spec.is_fine usage.now }
{
    !is_judged(usage.spot.part) || may_stand(&usage.act, usage.meaning)
}

fn all_fine(usages: &[Usage]) -> bool
    ensures { result ≡ list_all spec.is_fine usages.now }
{
    usages.iter().all(is_fine)
}

fn push_steady(decl: &Decl, usages: &[Usage], steady: &mut Vec<bool>) -> Result<(), AllocError>
    requires { usages.now ≡ usages_of decl.now }
    ensures { OnOk result (steady.new.items ≡ steady.old.items ++ map spec.reads_steadily (component_in decl.now)) }
{
    match decl {
        Decl::Component(_) => {
            steady.push(all_fine(usages))?;
            Ok(())
        }
        Decl::Service(_) => Ok(()),
        Decl::Pipe(_) => Ok(()),
        Decl::Environment(_) => Ok(()),
        Decl::Token(_, _) => Ok(()),
        Decl::Bootstrap(_, _, _) => Ok(()),
    }
}

fn push_name(name: &NgText, called: &mut HashSet<NgText>) -> Result<(), AllocError>
    ensures { OnOk result ((n : Name) → contains bytes_eq called.new n ≡ (contains bytes_eq called.old n || bytes_eq name.now n)) }
{
    let name = name.copy()?;
    called.insert(name)?;
    Ok(())
}

fn push_sent(usage: &Usage, called: &mut HashSet<NgText>) -> Result<(), AllocError>
    ensures { OnOk result ((n : Name) → contains bytes_eq called.new n ≡ (contains bytes_eq called.old n || spec.is_sent n usage.now)) }
{
    if !leads_out(usage.meaning) {
        return Ok(());
    }
    match &usage.act {
        Act::Sent(_, method, _) => {
            push_name(method, called)?;
            Ok(())
        }
        Act::Read => Ok(()),
        Act::Asked => Ok(()),
        Act::Called(_) => Ok(()),
        Act::Piped(_) => Ok(()),
        Act::Set => Ok(()),
        Act::Done(_) => Ok(()),
        Act::Outlet => Ok(()),
    }
}

fn push_all_sent(usages: &[Usage], called: &mut HashSet<NgText>) -> Result<(), AllocError>
    ensures { OnOk result ((n : Name) → contains bytes_eq called.new n ≡ (contains bytes_eq called.old n || list_any (spec.is_sent n) usages.now)) }
{
    for usage in usages {
        push_sent(usage, called)?;
    }
    Ok(())
}

/// Goes over all names in an application once.
pub(crate) fn survey_of(alloc: Global, decls: &[Decl]) -> Result<Survey, AllocError>
    ensures steady { IfOk result (λ s. s.steady.items ≡ map spec.reads_steadily (components decls.now)) }
    ensures called { IfOk result (λ s. (n : Name) → contains bytes_eq s.called n ≡ spec.is_called decls.now n) }
{
    let mut steady = Vec::new(alloc);
    let mut called = HashSet::new(alloc);
    for decl in decls {
        let usages = decl_usages(alloc, decl)?;
        push_steady(decl, usages.as_slice(), &mut steady)?;
        push_all_sent(usages.as_slice(), &mut called)?;
    }
    Ok(Survey { steady, called })
}
