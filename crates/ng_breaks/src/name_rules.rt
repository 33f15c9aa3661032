//! The rules on the names that stand in expressions and statements.

ghost use Rattle.std.specs.Prelude.{◌≡◌, ◌++◌, OnOk};
ghost use Rattle.std.specs.Option.{option_copied};
ghost use Rattle.ng_breaks.specs.Least.{broken, least_of};
ghost use Rattle.ng_breaks.specs.NameRules as spec;

use crate::least::offer;
use ng_ast::{Refusal, Rule};
use ng_parts::{Declared, Kind};
use ng_scopes::{Act, Meaning, Part, Sort, Usage};
use ng_values::NgText;
use std::alloc::AllocError;

fn sort_in(meaning: Option<Meaning>) -> Option<Sort>
    ensures { result ≡ spec.sort_in meaning }
{
    match meaning {
        Some(Meaning::Member(sort, _)) => Some(sort),
        Some(Meaning::Parameter) => None,
        Some(Meaning::Variable) => None,
        Some(Meaning::Let) => None,
        Some(Meaning::Ahead) => None,
        Some(Meaning::Reference) => None,
        Some(Meaning::Template) => None,
        None => None,
    }
}

fn is_field(sort: Option<Sort>) -> bool
    ensures { result ≡ spec.is_field sort }
{
    matches!(sort, Some(Sort::Field))
}

fn is_signal(sort: Option<Sort>) -> bool
    ensures { result ≡ spec.is_signal sort }
{
    matches!(sort, Some(Sort::Signal))
}

fn is_method(sort: Option<Sort>) -> bool
    ensures { result ≡ spec.is_method sort }
{
    matches!(sort, Some(Sort::Method))
}

fn is_injected(sort: Option<Sort>) -> bool
    ensures { result ≡ spec.is_injected sort }
{
    matches!(sort, Some(Sort::Inject))
}

/// Whether a member is an input.
pub fn is_input(sort: Option<Sort>) -> bool
    ensures { result ≡ spec.is_input sort }
{
    matches!(sort, Some(Sort::Input))
}

/// Whether a member is an output.
pub fn is_output(sort: Option<Sort>) -> bool
    ensures { result ≡ spec.is_output sort }
{
    matches!(sort, Some(Sort::Output))
}

fn is_query(sort: Option<Sort>) -> bool
    ensures { result ≡ spec.is_query sort }
{
    matches!(sort, Some(Sort::Query))
}

fn is_no_value(sort: Option<Sort>) -> bool
    ensures { result ≡ spec.is_no_value sort }
{
    match sort {
        Some(Sort::Field) => false,
        Some(Sort::Signal) => true,
        Some(Sort::Getter) => false,
        Some(Sort::Method) => true,
        Some(Sort::Inject) => false,
        Some(Sort::Input) => false,
        Some(Sort::Output) => true,
        Some(Sort::Query) => false,
        None => false,
    }
}

fn is_reference(meaning: Option<Meaning>) -> bool
    ensures { result ≡ spec.is_reference meaning }
{
    match meaning {
        Some(Meaning::Reference) => true,
        Some(Meaning::Template) => true,
        Some(Meaning::Parameter) => false,
        Some(Meaning::Variable) => false,
        Some(Meaning::Let) => false,
        Some(Meaning::Ahead) => false,
        Some(Meaning::Member(_, _)) => false,
        None => false,
    }
}

fn is_template(meaning: Option<Meaning>) -> bool
    ensures { result ≡ spec.is_template meaning }
{
    matches!(meaning, Some(Meaning::Template))
}

fn is_ahead(meaning: Option<Meaning>) -> bool
    ensures { result ≡ spec.is_ahead meaning }
{
    matches!(meaning, Some(Meaning::Ahead))
}

fn is_scoped(act: &Act) -> bool
    ensures { result ≡ spec.is_scoped act.now }
{
    match act {
        Act::Piped(_) => false,
        Act::Outlet => false,
        Act::Read => true,
        Act::Asked => true,
        Act::Called(_) => true,
        Act::Set => true,
        Act::Done(_) => true,
        Act::Sent(_, _, _) => true,
    }
}

fn is_set(act: &Act) -> bool
    ensures { result ≡ spec.is_set act.now }
{
    matches!(act, Act::Set)
}

fn is_outlet(act: &Act) -> bool
    ensures { result ≡ spec.is_outlet act.now }
{
    matches!(act, Act::Outlet)
}

fn is_binding(part: Part) -> bool
    ensures { result ≡ spec.is_binding part }
{
    matches!(part, Part::Binding)
}

fn is_listener(part: Part) -> bool
    ensures { result ≡ spec.is_listener part }
{
    matches!(part, Part::Listener)
}

fn is_getter(part: Part) -> bool
    ensures { result ≡ spec.is_getter part }
{
    matches!(part, Part::Getter)
}

fn is_init(part: Part) -> bool
    ensures { result ≡ spec.is_init part }
{
    matches!(part, Part::Init)
}

fn is_event(name: &NgText) -> bool
    ensures { result ≡ spec.is_event name.now }
{
    name.as_str() == "$event"
}

fn is_built_in(name: &NgText, count: usize) -> bool
    ensures { result ≡ spec.is_built_in name.now count }
{
    let name = name.as_str();
    name == "slice" && (count == 1 || count == 2)
        || (name == "uppercase" || name == "lowercase" || name == "json" || name == "length")
            && count == 0
}

fn is_pipe(declared: Option<&Declared>, name: &NgText, count: usize) -> bool
    ensures { result ≡ spec.is_pipe (option_copied declared.entry) name.now count }
{
    match declared {
        None => is_built_in(name, count),
        Some(declared) => match declared.kind {
            Kind::Pipe(params) => params.checked_sub(1) == Some(count),
            Kind::Component => is_built_in(name, count),
            Kind::Service => is_built_in(name, count),
            Kind::Environment => is_built_in(name, count),
            Kind::Token => is_built_in(name, count),
        },
    }
}

fn lacks_pipe(declared: Option<&Declared>, name: &NgText, act: &Act) -> bool
    ensures { result ≡ spec.lacks_pipe (option_copied declared.entry) name.now act.now }
{
    match act {
        Act::Piped(count) => !is_pipe(declared, name, *count),
        Act::Outlet => false,
        Act::Read => false,
        Act::Asked => false,
        Act::Called(_) => false,
        Act::Set => false,
        Act::Done(_) => false,
        Act::Sent(_, _, _) => false,
    }
}

fn is_unknown(usage: &Usage) -> bool
    ensures { result ≡ spec.is_unknown usage.now }
{
    is_scoped(&usage.act) && usage.meaning.is_none() && !is_event(&usage.name)
}

fn is_early(usage: &Usage) -> bool
    ensures { result ≡ spec.is_early usage.now }
{
    is_scoped(&usage.act) && is_ahead(usage.meaning)
}

fn binds_reference(usage: &Usage) -> bool
    ensures { result ≡ spec.binds_reference usage.now }
{
    is_binding(usage.spot.part) && is_scoped(&usage.act) && is_reference(usage.meaning)
}

fn binds_query(usage: &Usage) -> bool
    ensures { result ≡ spec.binds_query usage.now }
{
    let part = usage.spot.part;
    (is_binding(part) || is_getter(part))
        && is_scoped(&usage.act)
        && is_query(sort_in(usage.meaning))
}

fn is_fixed(usage: &Usage) -> bool
    ensures { result ≡ spec.is_fixed usage.now }
{
    is_set(&usage.act) && !is_field(sort_in(usage.meaning))
}

fn can_send(
    part: Part,
    plain: bool,
    method: &NgText,
    count: usize,
    meaning: Option<Meaning>,
) -> bool
    ensures { result ≡ spec.can_send part plain method.now count meaning }
{
    let sort = sort_in(meaning);
    let method = method.as_str();
    plain && is_signal(sort) && method == "set" && count == 1
        || plain && is_output(sort) && method == "emit" && count <= 1
        || is_injected(sort)
        || is_reference(meaning) && is_listener(part)
        || is_query(sort) && !is_listener(part)
}

fn misuses(part: Part, meaning: Option<Meaning>, act: &Act) -> bool
    ensures { result ≡ spec.misuses part meaning act.now }
{
    let sort = sort_in(meaning);
    match act {
        Act::Read => is_no_value(sort),
        Act::Asked => is_no_value(sort),
        Act::Called(count) => !(is_signal(sort) && *count == 0),
        Act::Piped(_) => false,
        Act::Set => false,
        Act::Done(_) => !is_method(sort),
        Act::Sent(plain, method, count) => !can_send(part, *plain, method, *count, meaning),
        Act::Outlet => false,
    }
}

fn is_misused(usage: &Usage) -> bool
    ensures { result ≡ spec.is_misused usage.now }
{
    misuses(usage.spot.part, usage.meaning, &usage.act)
}

fn is_declared_pipe(declared: Option<&Declared>) -> bool
    ensures { result ≡ spec.is_declared_pipe (option_copied declared.entry) }
{
    match declared {
        None => false,
        Some(declared) => match declared.kind {
            Kind::Pipe(_) => true,
            Kind::Component => false,
            Kind::Service => false,
            Kind::Environment => false,
            Kind::Token => false,
        },
    }
}

fn starts_with(sort: Option<Sort>) -> bool
    ensures { result ≡ spec.starts_with sort }
{
    is_field(sort) || is_signal(sort) || is_input(sort)
}

fn reaches(declared: Option<&Declared>, meaning: Option<Meaning>, act: &Act) -> bool
    ensures { result ≡ spec.reaches (option_copied declared.entry) meaning act.now }
{
    match act {
        Act::Piped(_) => is_declared_pipe(declared),
        Act::Outlet => false,
        Act::Read => !starts_with(sort_in(meaning)),
        Act::Asked => !starts_with(sort_in(meaning)),
        Act::Called(_) => !starts_with(sort_in(meaning)),
        Act::Set => !starts_with(sort_in(meaning)),
        Act::Done(_) => !starts_with(sort_in(meaning)),
        Act::Sent(_, _, _) => !starts_with(sort_in(meaning)),
    }
}

fn reaches_out(declared: Option<&Declared>, usage: &Usage) -> bool
    ensures { result ≡ spec.reaches_out (option_copied declared.entry) usage.now }
{
    is_init(usage.spot.part) && reaches(declared, usage.meaning, &usage.act)
}

fn lacks_template(usage: &Usage) -> bool
    ensures { result ≡ spec.lacks_template usage.now }
{
    is_outlet(&usage.act) && !is_template(usage.meaning)
}

fn is_outside(usage: &Usage) -> bool
    ensures { result ≡ spec.is_outside usage.now }
{
    is_scoped(&usage.act) && is_event(&usage.name) && !is_listener(usage.spot.part)
}

/// Takes the breaks of the rules on names at one name that stands in an expression or a statement: N08, N11 to N16, N19, N26 and N30, of
/// which each has a definition in `specs/`. `declared` is what the application declares by that name, and `owner` the name of the
/// declaration in which it stands, which N30 prints. What is taken goes into `best`; the only error is want of memory.
///
/// What bindings may read and what templates may call is after Angular's template syntax
/// (<https://angular.dev/guide/templates/expression-syntax>); the rules as they are divided and numbered are this project's own.
#[tactic(auto, using(crate::specs::LeastLaws::least_laws))]
pub fn judge_usage(
    declared: Option<&Declared>,
    owner: &NgText,
    usage: &Usage,
    best: &mut Option<Refusal>,
) -> Result<(), AllocError>
    ensures { OnOk result (best.new ≡ least_of best.old (spec.usage_breaks (option_copied declared.entry) owner.now usage.now)) }
{
    let place = usage.spot.place;
    let name = &usage.name;
    offer(
        lacks_pipe(declared, name, &usage.act),
        Rule::N08,
        place,
        name,
        best,
    )?;
    offer(is_unknown(usage), Rule::N11, place, name, best)?;
    offer(is_early(usage), Rule::N12, place, name, best)?;
    offer(binds_reference(usage), Rule::N13, place, name, best)?;
    offer(binds_query(usage), Rule::N14, place, name, best)?;
    offer(is_fixed(usage), Rule::N15, place, name, best)?;
    offer(is_misused(usage), Rule::N16, place, name, best)?;
    offer(reaches_out(declared, usage), Rule::N19, place, name, best)?;
    offer(lacks_template(usage), Rule::N26, place, name, best)?;
    offer(is_outside(usage), Rule::N30, place, owner, best)?;
    Ok(())
}
