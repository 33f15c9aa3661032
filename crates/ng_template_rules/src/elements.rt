//! The rules on the elements of a template.

ghost use Rattle.std.specs.Prelude.{◌≡◌, ◌++◌, ◌||◌, ◌&&◌, [], ◌∷◌, codes, bytes_eq, not, map, filter, OnOk, IfOk};
ghost use Rattle.std.specs.List.{flat_map, list_any};
ghost use Rattle.std.specs.Option.{option_copied};
ghost use Rattle.ng_ast.specs.declared.refusals.Rule.TheVariants as rule;
ghost use Rattle.ng_parts.specs.Sites.{repeats};
ghost use Rattle.ng_template_rules.specs.ElementRules as spec;
ghost use Rattle.ng_template_rules.specs.Tables as tables;
ghost use Rattle.ng_breaks.specs.Least.{broken, least_of, of_rule};

use crate::tables::{is_event, is_property};
use ng_ast::{AttrForm, Component, Member, MemberKind, Place, Refusal, Rule, TAttr};
use ng_breaks::{is_input, is_output, judge_repeats, offer};
use ng_hosts::change_of;
use ng_parts::{Site, push_if, push_site};
use ng_scopes::{Sort, sort_of};
use ng_values::NgText;
use std::alloc::{AllocError, Global};

/// A kind of attributes: plain ones, bindings to an input or a property, to an attribute, to a class, to a style, and those that can
/// give an input.
#[derive(Clone, Copy)]
pub(crate) enum Group {
    Plain,
    Bound,
    Attribute,
    Class,
    Style,
    Giving,
}

fn is_plain(form: &AttrForm) -> bool
    ensures { result ≡ spec.is_plain form.now }
{
    matches!(
        form,
        AttrForm::Static(_) | AttrForm::Variable(_) | AttrForm::Outlet(_) | AttrForm::Context(_)
    )
}

fn is_bound(form: &AttrForm) -> bool
    ensures { result ≡ spec.is_bound form.now }
{
    matches!(
        form,
        AttrForm::Joined(_) | AttrForm::Property(_) | AttrForm::Both(_)
    )
}

fn is_giving(form: &AttrForm) -> bool
    ensures { result ≡ spec.is_giving form.now }
{
    matches!(
        form,
        AttrForm::Static(_) | AttrForm::Joined(_) | AttrForm::Property(_) | AttrForm::Both(_)
    )
}

fn is_of(group: Group, form: &AttrForm) -> bool
    ensures { result ≡ spec.is_of group form.now }
{
    match group {
        Group::Plain => is_plain(form),
        Group::Bound => is_bound(form),
        Group::Attribute => matches!(form, AttrForm::Attribute(_)),
        Group::Class => matches!(form, AttrForm::Class(_)),
        Group::Style => matches!(form, AttrForm::Style(_, _)),
        Group::Giving => is_giving(form),
    }
}

fn sites_of(alloc: Global, group: Group, attrs: &[TAttr]) -> Result<Vec<Site>, AllocError>
    ensures { IfOk result (λ sites. sites.items ≡ spec.sites_of group attrs.now) }
{
    let mut sites = Vec::new(alloc);
    for attr in attrs {
        push_if(is_of(group, &attr.form), attr.place, &attr.name, &mut sites)?;
    }
    Ok(sites)
}

fn push_heard(alloc: Global, attr: &TAttr, sites: &mut Vec<Site>) -> Result<(), AllocError>
    ensures { OnOk result (sites.new.items ≡ sites.old.items ++ spec.heard attr.now.place attr.now.name attr.now.form) }
{
    match &attr.form {
        AttrForm::Listener(_) => {
            push_site(attr.place, &attr.name, sites)?;
            Ok(())
        }
        AttrForm::Both(_) => {
            let change = change_of(alloc, &attr.name)?;
            push_site(attr.place, &change, sites)?;
            Ok(())
        }
        AttrForm::Static(_) => Ok(()),
        AttrForm::Joined(_) => Ok(()),
        AttrForm::Property(_) => Ok(()),
        AttrForm::Attribute(_) => Ok(()),
        AttrForm::Class(_) => Ok(()),
        AttrForm::Style(_, _) => Ok(()),
        AttrForm::Reference => Ok(()),
        AttrForm::Variable(_) => Ok(()),
        AttrForm::Outlet(_) => Ok(()),
        AttrForm::Context(_) => Ok(()),
    }
}

fn heard_sites(alloc: Global, attrs: &[TAttr]) -> Result<Vec<Site>, AllocError>
    ensures { IfOk result (λ sites. sites.items ≡ spec.heard_sites attrs.now) }
{
    let mut sites = Vec::new(alloc);
    for attr in attrs {
        push_heard(alloc, attr, &mut sites)?;
    }
    Ok(sites)
}

fn judge_group(
    alloc: Global,
    group: Group,
    attrs: &[TAttr],
    best: &mut Option<Refusal>,
) -> Result<(), AllocError>
    ensures { OnOk result (best.new ≡ least_of best.old (of_rule rule.N02 (repeats (spec.sites_of group attrs.now)))) }
{
    let sites = sites_of(alloc, group, attrs)?;
    judge_repeats(alloc, sites.as_slice(), best)?;
    Ok(())
}

fn judge_heard(alloc: Global, attrs: &[TAttr], best: &mut Option<Refusal>) -> Result<(), AllocError>
    ensures { OnOk result (best.new ≡ least_of best.old (of_rule rule.N02 (repeats (spec.heard_sites attrs.now)))) }
{
    let sites = heard_sites(alloc, attrs)?;
    judge_repeats(alloc, sites.as_slice(), best)?;
    Ok(())
}

fn part_in(mut members: &[Member], name: &NgText) -> Option<Sort>
    ensures { result ≡ spec.part_in members.entry.now name.now }
{
    while let [member, rest @ ..] = members {
        if let Some(sort) = sort_of(&member.kind) {
            if name.as_str() == member.name.as_str() {
                return Some(sort);
            }
        }
        members = rest;
    }
    None
}

fn part_sort(host: Option<&Component>, name: &NgText) -> Option<Sort>
    ensures { result ≡ spec.part_sort (option_copied host.entry) name.now }
{
    match host {
        None => None,
        Some(component) => part_in(component.members.as_slice(), name),
    }
}

fn has_input(host: Option<&Component>, name: &NgText) -> bool
    ensures { result ≡ spec.has_input (option_copied host.entry) name.now }
{
    is_input(part_sort(host, name))
}

fn has_output(host: Option<&Component>, name: &NgText) -> bool
    ensures { result ≡ spec.has_output (option_copied host.entry) name.now }
{
    is_output(part_sort(host, name))
}

fn given(alloc: Global, host: Option<&Component>, sites: &[Site]) -> Result<Vec<Site>, AllocError>
    ensures { IfOk result (λ inputs. inputs.items ≡ spec.given (option_copied host.entry) sites.now) }
{
    let mut inputs = Vec::new(alloc);
    for site in sites {
        push_if(
            has_input(host, &site.name),
            site.place,
            &site.name,
            &mut inputs,
        )?;
    }
    Ok(inputs)
}

fn judge_given(
    alloc: Global,
    host: Option<&Component>,
    attrs: &[TAttr],
    best: &mut Option<Refusal>,
) -> Result<(), AllocError>
    ensures { OnOk result (best.new ≡ least_of best.old (of_rule rule.N02 (repeats (spec.given (option_copied host.entry) (spec.sites_of Group.Giving attrs.now))))) }
{
    let giving = sites_of(alloc, Group::Giving, attrs)?;
    let inputs = given(alloc, host, giving.as_slice())?;
    judge_repeats(alloc, inputs.as_slice(), best)?;
    Ok(())
}

#[tactic(auto, using(ng_breaks::specs::LeastLaws::least_laws))]
pub(crate) fn judge_attr_repeats(
    alloc: Global,
    host: Option<&Component>,
    attrs: &[TAttr],
    best: &mut Option<Refusal>,
) -> Result<(), AllocError>
    ensures { OnOk result (best.new ≡ least_of best.old (spec.attr_repeats (option_copied host.entry) attrs.now)) }
{
    judge_group(alloc, Group::Plain, attrs, best)?;
    judge_group(alloc, Group::Bound, attrs, best)?;
    judge_group(alloc, Group::Attribute, attrs, best)?;
    judge_group(alloc, Group::Class, attrs, best)?;
    judge_group(alloc, Group::Style, attrs, best)?;
    judge_heard(alloc, attrs, best)?;
    judge_given(alloc, host, attrs, best)?;
    Ok(())
}

/// Whether a name is neither an input of the element's component nor a property.
fn lacks_input(host: Option<&Component>, name: &NgText) -> bool
    ensures { result ≡ not (spec.has_input (option_copied host.entry) name.now || tables.is_property name.now) }
{
    !(has_input(host, name) || is_property(name))
}

fn judge_bound(
    host: Option<&Component>,
    bound: &[Site],
    best: &mut Option<Refusal>,
) -> Result<(), AllocError>
    ensures { OnOk result (best.new ≡ least_of best.old (flat_map (λ s. broken (not (spec.has_input (option_copied host.entry) s.name || tables.is_property s.name)) rule.N05 s.place s.name) bound.now)) }
{
    for site in bound {
        offer(
            lacks_input(host, &site.name),
            Rule::N05,
            site.place,
            &site.name,
            best,
        )?;
    }
    Ok(())
}

pub(crate) fn judge_inputs(
    alloc: Global,
    host: Option<&Component>,
    attrs: &[TAttr],
    best: &mut Option<Refusal>,
) -> Result<(), AllocError>
    ensures { OnOk result (best.new ≡ least_of best.old (spec.input_breaks (option_copied host.entry) attrs.now)) }
{
    let bound = sites_of(alloc, Group::Bound, attrs)?;
    judge_bound(host, bound.as_slice(), best)?;
    Ok(())
}

fn is_given(giving: &[Site], name: &NgText) -> bool
    ensures { result ≡ list_any (λ s. bytes_eq name.now s.name) giving.now }
{
    giving
        .iter()
        .any(|site| name.as_str() == site.name.as_str())
}

fn is_required(kind: &MemberKind) -> bool
    ensures { result ≡ spec.is_required kind.now }
{
    match kind {
        MemberKind::Input(required, _) => *required,
        MemberKind::Field(_) => false,
        MemberKind::Signal(_) => false,
        MemberKind::Getter(_) => false,
        MemberKind::Method(_, _) => false,
        MemberKind::Init(_) => false,
        MemberKind::Inject(_, _) => false,
        MemberKind::Output => false,
        MemberKind::Provide(_) => false,
        MemberKind::ViewProvide(_) => false,
        MemberKind::Query(_, _, _) => false,
    }
}

/// Whether the member is a required input that isn't among those that the element gives.
fn is_missing(giving: &[Site], member: &Member) -> bool
    ensures { result ≡ (spec.is_required member.now.kind && not (list_any (λ s. bytes_eq member.now.name s.name) giving.now)) }
{
    is_required(&member.kind) && !is_given(giving, &member.name)
}

fn judge_wanted(
    place: Place,
    members: &[Member],
    giving: &[Site],
    best: &mut Option<Refusal>,
) -> Result<(), AllocError>
    ensures { OnOk result (best.new ≡ least_of best.old (flat_map (spec.wanted_breaks place giving.now) members.now)) }
{
    for member in members {
        offer(
            is_missing(giving, member),
            Rule::N06,
            place,
            &member.name,
            best,
        )?;
    }
    Ok(())
}

pub(crate) fn judge_required(
    alloc: Global,
    place: Place,
    host: Option<&Component>,
    attrs: &[TAttr],
    best: &mut Option<Refusal>,
) -> Result<(), AllocError>
    ensures { OnOk result (best.new ≡ least_of best.old (spec.required_breaks place (option_copied host.entry) attrs.now)) }
{
    match host {
        None => Ok(()),
        Some(component) => {
            let giving = sites_of(alloc, Group::Giving, attrs)?;
            judge_wanted(place, component.members.as_slice(), giving.as_slice(), best)?;
            Ok(())
        }
    }
}

fn judge_output(
    alloc: Global,
    host: Option<&Component>,
    attr: &TAttr,
    best: &mut Option<Refusal>,
) -> Result<(), AllocError>
    ensures { OnOk result (best.new ≡ least_of best.old (spec.output_break (option_copied host.entry) attr.now.place attr.now.name attr.now.form)) }
{
    match &attr.form {
        AttrForm::Listener(_) => {
            let known = has_output(host, &attr.name) || is_event(&attr.name);
            offer(!known, Rule::N07, attr.place, &attr.name, best)?;
            Ok(())
        }
        AttrForm::Both(_) => {
            let change = change_of(alloc, &attr.name)?;
            offer(
                !has_output(host, &change),
                Rule::N07,
                attr.place,
                &change,
                best,
            )?;
            Ok(())
        }
        AttrForm::Static(_) => Ok(()),
        AttrForm::Joined(_) => Ok(()),
        AttrForm::Property(_) => Ok(()),
        AttrForm::Attribute(_) => Ok(()),
        AttrForm::Class(_) => Ok(()),
        AttrForm::Style(_, _) => Ok(()),
        AttrForm::Reference => Ok(()),
        AttrForm::Variable(_) => Ok(()),
        AttrForm::Outlet(_) => Ok(()),
        AttrForm::Context(_) => Ok(()),
    }
}

pub(crate) fn judge_outputs(
    alloc: Global,
    host: Option<&Component>,
    attrs: &[TAttr],
    best: &mut Option<Refusal>,
) -> Result<(), AllocError>
    ensures { OnOk result (best.new ≡ least_of best.old (spec.output_breaks (option_copied host.entry) attrs.now)) }
{
    for attr in attrs {
        judge_output(alloc, host, attr, best)?;
    }
    Ok(())
}
