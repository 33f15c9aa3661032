//! The rules on members and providers.

ghost use Rattle.std.specs.Prelude.{◌≡◌, [], ◌∷◌, ◌++◌, bytes_eq, not, OnOk, IfOk};
ghost use Rattle.ng_ast.specs.declared.refusals.Rule.TheVariants as rule;
ghost use Rattle.ng_parts.specs.Sites.{repeats};
ghost use Rattle.std.specs.HashMap.{get};
ghost use Rattle.std.specs.List.{flat_map, list_any};
ghost use Rattle.std.specs.Option.{option_copied};
ghost use Rattle.ng_breaks.specs.Least.{broken, least_of, of_rule};
ghost use Rattle.ng_decl_rules.specs.Barred as after;
ghost use Rattle.ng_decl_rules.specs.MemberRules as spec;

use ng_ast::{Aim, Flag, Member, MemberKind, Place, Provider, Refusal, Rule};
use ng_breaks::{judge_repeats, offer, offer_word};
use ng_parts::{Declared, Kind, Site, push_site};
use ng_scopes::sort_of;
use ng_values::NgText;
use std::alloc::{AllocError, Global};
use std::collections::HashMap;

/// Whether a name names a service, a component or a token.
pub(crate) fn is_token(declared: Option<&Declared>) -> bool
    ensures { result ≡ spec.is_token (option_copied declared.entry) }
{
    match declared {
        None => false,
        Some(declared) => match declared.kind {
            Kind::Component => true,
            Kind::Service => true,
            Kind::Token => true,
            Kind::Pipe(_) => false,
            Kind::Environment => false,
        },
    }
}

/// Whether a name names a component.
pub(crate) fn is_component(declared: Option<&Declared>) -> bool
    ensures { result ≡ spec.is_component (option_copied declared.entry) }
{
    match declared {
        None => false,
        Some(declared) => match declared.kind {
            Kind::Component => true,
            Kind::Service => false,
            Kind::Token => false,
            Kind::Pipe(_) => false,
            Kind::Environment => false,
        },
    }
}

fn is_service(declared: Option<&Declared>) -> bool
    ensures { result ≡ spec.is_service (option_copied declared.entry) }
{
    match declared {
        None => false,
        Some(declared) => match declared.kind {
            Kind::Service => true,
            Kind::Component => false,
            Kind::Token => false,
            Kind::Pipe(_) => false,
            Kind::Environment => false,
        },
    }
}

/// Whether a name names an environment.
pub(crate) fn is_environment(declared: Option<&Declared>) -> bool
    ensures { result ≡ spec.is_environment (option_copied declared.entry) }
{
    match declared {
        None => false,
        Some(declared) => match declared.kind {
            Kind::Environment => true,
            Kind::Service => false,
            Kind::Component => false,
            Kind::Token => false,
            Kind::Pipe(_) => false,
        },
    }
}

fn judge_token(
    index: &HashMap<NgText, Declared>,
    place: Place,
    token: &NgText,
    best: &mut Option<Refusal>,
) -> Result<(), AllocError>
    ensures { OnOk result (best.new ≡ least_of best.old (broken (not (spec.is_token (get bytes_eq index.now token.now))) rule.N20 place token.now)) }
{
    offer(!is_token(index.get(token)), Rule::N20, place, token, best)?;
    Ok(())
}

/// Takes the breaks of a provider that stands in the part with this place.
#[tactic(auto, using(ng_breaks::specs::LeastLaws::least_laws))]
pub(crate) fn judge_provider(
    index: &HashMap<NgText, Declared>,
    place: Place,
    provider: &Provider,
    best: &mut Option<Refusal>,
) -> Result<(), AllocError>
    ensures { OnOk result (best.new ≡ least_of best.old (spec.provider_breaks (get bytes_eq index.now) place provider.now)) }
{
    match provider {
        Provider::Plain(token) => {
            judge_token(index, place, token, best)?;
            let declared = index.get(token);
            offer(
                is_token(declared) && !is_service(declared),
                Rule::N22,
                place,
                token,
                best,
            )?;
            Ok(())
        }
        Provider::Other(token, service) => {
            judge_token(index, place, token, best)?;
            offer(
                !is_service(index.get(service)),
                Rule::N22,
                place,
                service,
                best,
            )?;
            Ok(())
        }
        Provider::Constant(token, _) => {
            judge_token(index, place, token, best)?;
            Ok(())
        }
        Provider::From(token, other) => {
            judge_token(index, place, token, best)?;
            judge_token(index, place, other, best)?;
            Ok(())
        }
    }
}

fn clashes(earlier: Flag, later: Flag) -> bool
    ensures { result ≡ spec.clashes earlier later }
{
    match earlier {
        Flag::Optional => later == Flag::Optional,
        Flag::Own => later != Flag::Optional,
        Flag::Skip => later == Flag::Own || later == Flag::Skip,
        Flag::Host => later == Flag::Own || later == Flag::Host,
    }
}

/// The flags that can't stand any more.
#[derive(Clone, Copy)]
pub(crate) struct Barred {
    optional: bool,
    own: bool,
    skip: bool,
    host: bool,
}

fn is_barred(barred: Barred, flag: Flag) -> bool
    ensures { result ≡ after.bars barred flag }
{
    match flag {
        Flag::Optional => barred.optional,
        Flag::Own => barred.own,
        Flag::Skip => barred.skip,
        Flag::Host => barred.host,
    }
}

fn barred_after(barred: Barred, flag: Flag) -> Barred
    ensures { result ≡ after.barred_after barred flag }
{
    Barred {
        optional: barred.optional || clashes(flag, Flag::Optional),
        own: barred.own || clashes(flag, Flag::Own),
        skip: barred.skip || clashes(flag, Flag::Skip),
        host: barred.host || clashes(flag, Flag::Host),
    }
}

fn judge_flag(
    alloc: Global,
    wanted: bool,
    place: Place,
    flag: Flag,
    best: &mut Option<Refusal>,
) -> Result<(), AllocError>
    ensures { OnOk result (best.new ≡ least_of best.old (broken wanted rule.N21 place (spec.flag_word flag))) }
{
    let word = match flag {
        Flag::Optional => "optional",
        Flag::Own => "self",
        Flag::Skip => "skipself",
        Flag::Host => "host",
    };
    offer_word(alloc, wanted, Rule::N21, place, word, best)?;
    Ok(())
}

fn judge_flags(
    alloc: Global,
    place: Place,
    flags: &[Flag],
    best: &mut Option<Refusal>,
) -> Result<(), AllocError>
    ensures { OnOk result (best.new ≡ least_of best.old (spec.flags_after [] place flags.now)) }
{
    let mut barred = Barred {
        optional: false,
        own: false,
        skip: false,
        host: false,
    };
    for flag in flags {
        judge_flag(alloc, is_barred(barred, *flag), place, *flag, best)?;
        barred = barred_after(barred, *flag);
    }
    Ok(())
}

fn judge_aim(
    index: &HashMap<NgText, Declared>,
    place: Place,
    aim: &Aim,
    best: &mut Option<Refusal>,
) -> Result<(), AllocError>
    ensures { OnOk result (best.new ≡ least_of best.old (spec.aim_breaks (get bytes_eq index.now) place aim.now)) }
{
    match aim {
        Aim::Component(name) => {
            offer(!is_component(index.get(name)), Rule::N29, place, name, best)?;
            Ok(())
        }
        Aim::Reference(_) => Ok(()),
    }
}

fn parameter_sites(alloc: Global, place: Place, params: &[NgText]) -> Result<Vec<Site>, AllocError>
    ensures { IfOk result (λ sites. sites.items ≡ spec.parameter_sites place params.now) }
{
    let mut sites = Vec::new(alloc);
    for param in params {
        push_site(place, param, &mut sites)?;
    }
    Ok(sites)
}

/// Takes the repeated names of some parameters.
pub(crate) fn judge_parameters(
    alloc: Global,
    place: Place,
    params: &[NgText],
    best: &mut Option<Refusal>,
) -> Result<(), AllocError>
    ensures { OnOk result (best.new ≡ least_of best.old (of_rule rule.N02 (repeats (spec.parameter_sites place params.now)))) }
{
    let sites = parameter_sites(alloc, place, params)?;
    judge_repeats(alloc, sites.as_slice(), best)?;
    Ok(())
}

#[tactic(auto, using(ng_breaks::specs::LeastLaws::least_laws))]
fn judge_member(
    alloc: Global,
    index: &HashMap<NgText, Declared>,
    member: &Member,
    best: &mut Option<Refusal>,
) -> Result<(), AllocError>
    ensures { OnOk result (best.new ≡ least_of best.old (spec.member_breaks (get bytes_eq index.now) member.now)) }
{
    let place = member.place;
    match &member.kind {
        MemberKind::Method(params, _) => {
            judge_parameters(alloc, place, params.as_slice(), best)?;
            Ok(())
        }
        MemberKind::Inject(token, flags) => {
            judge_token(index, place, token, best)?;
            judge_flags(alloc, place, flags.as_slice(), best)?;
            Ok(())
        }
        MemberKind::Provide(provider) => {
            judge_provider(index, place, provider, best)?;
            Ok(())
        }
        MemberKind::ViewProvide(provider) => {
            judge_provider(index, place, provider, best)?;
            Ok(())
        }
        MemberKind::Query(_, aim, _) => {
            judge_aim(index, place, aim, best)?;
            Ok(())
        }
        MemberKind::Field(_) => Ok(()),
        MemberKind::Signal(_) => Ok(()),
        MemberKind::Getter(_) => Ok(()),
        MemberKind::Init(_) => Ok(()),
        MemberKind::Input(_, _) => Ok(()),
        MemberKind::Output => Ok(()),
    }
}

fn push_member_site(member: &Member, sites: &mut Vec<Site>) -> Result<(), AllocError>
    ensures { OnOk result (sites.new.items ≡ sites.old.items ++ spec.member_site member.now) }
{
    match sort_of(&member.kind) {
        None => Ok(()),
        Some(_) => {
            push_site(member.place, &member.name, sites)?;
            Ok(())
        }
    }
}

fn push_init_site(alloc: Global, member: &Member, sites: &mut Vec<Site>) -> Result<(), AllocError>
    ensures { OnOk result (sites.new.items ≡ sites.old.items ++ spec.init_site member.now) }
{
    match &member.kind {
        MemberKind::Init(_) => {
            let name = NgText::new(alloc, "init")?;
            push_site(member.place, &name, sites)?;
            Ok(())
        }
        MemberKind::Field(_) => Ok(()),
        MemberKind::Signal(_) => Ok(()),
        MemberKind::Getter(_) => Ok(()),
        MemberKind::Method(_, _) => Ok(()),
        MemberKind::Inject(_, _) => Ok(()),
        MemberKind::Input(_, _) => Ok(()),
        MemberKind::Output => Ok(()),
        MemberKind::Query(_, _, _) => Ok(()),
        MemberKind::Provide(_) => Ok(()),
        MemberKind::ViewProvide(_) => Ok(()),
    }
}

fn member_sites(alloc: Global, members: &[Member]) -> Result<Vec<Site>, AllocError>
    ensures { IfOk result (λ sites. sites.items ≡ flat_map spec.member_site members.now) }
{
    let mut sites = Vec::new(alloc);
    for member in members {
        push_member_site(member, &mut sites)?;
    }
    Ok(sites)
}

fn init_sites(alloc: Global, members: &[Member]) -> Result<Vec<Site>, AllocError>
    ensures { IfOk result (λ sites. sites.items ≡ flat_map spec.init_site members.now) }
{
    let mut sites = Vec::new(alloc);
    for member in members {
        push_init_site(alloc, member, &mut sites)?;
    }
    Ok(sites)
}

fn judge_each(
    alloc: Global,
    index: &HashMap<NgText, Declared>,
    members: &[Member],
    best: &mut Option<Refusal>,
) -> Result<(), AllocError>
    ensures { OnOk result (best.new ≡ least_of best.old (flat_map (spec.member_breaks (get bytes_eq index.now)) members.now)) }
{
    for member in members {
        judge_member(alloc, index, member, best)?;
    }
    Ok(())
}

/// Takes the breaks of the members of a component or a service.
#[tactic(auto, using(ng_breaks::specs::LeastLaws::least_laws))]
pub(crate) fn judge_members(
    alloc: Global,
    index: &HashMap<NgText, Declared>,
    members: &[Member],
    best: &mut Option<Refusal>,
) -> Result<(), AllocError>
    ensures { OnOk result (best.new ≡ least_of best.old (spec.members_breaks (get bytes_eq index.now) members.now)) }
{
    let named = member_sites(alloc, members)?;
    judge_repeats(alloc, named.as_slice(), best)?;
    let inits = init_sites(alloc, members)?;
    judge_repeats(alloc, inits.as_slice(), best)?;
    judge_each(alloc, index, members, best)?;
    Ok(())
}
