//! The least break: by the byte of its place, then by the number of its rule, and of several with that pair the first that is taken.
//!
//! `best` is the least of what was taken so far. What is said of it holds on `Ok`; after want of memory, the only error, it may have got
//! some of what was to be taken. That the least is the one to answer is this project's own rule.

ghost use Rattle.std.specs.Prelude.{◌≡◌, OnOk};
ghost use Rattle.ng_ast.specs.declared.refusals.Rule.TheVariants as rule;
ghost use Rattle.ng_parts.specs.Sites.{repeats};
ghost use Rattle.ng_breaks.specs.Least as spec;
ghost use Rattle.ng_breaks.specs.Least.{broken, least_of, of_rule, refusal};

use ng_ast::{Place, Refusal, Rule};
use ng_parts::{Site, push_repeats};
use ng_values::NgText;
use std::alloc::{AllocError, Global};

fn number(rule: Rule) -> u8
    ensures { result ≡ spec.number rule }
{
    match rule {
        Rule::Syntax => 0,
        Rule::Limit => 0,
        Rule::N01 => 1,
        Rule::N02 => 2,
        Rule::N03 => 3,
        Rule::N04 => 4,
        Rule::N05 => 5,
        Rule::N06 => 6,
        Rule::N07 => 7,
        Rule::N08 => 8,
        Rule::N09 => 9,
        Rule::N10 => 10,
        Rule::N11 => 11,
        Rule::N12 => 12,
        Rule::N13 => 13,
        Rule::N14 => 14,
        Rule::N15 => 15,
        Rule::N16 => 16,
        Rule::N17 => 17,
        Rule::N18 => 18,
        Rule::N19 => 19,
        Rule::N20 => 20,
        Rule::N21 => 21,
        Rule::N22 => 22,
        Rule::N23 => 23,
        Rule::N24 => 24,
        Rule::N25 => 25,
        Rule::N26 => 26,
        Rule::N27 => 27,
        Rule::N28 => 28,
        Rule::N29 => 29,
        Rule::N30 => 30,
    }
}

fn comes_first(rule: Rule, place: Place, name: &NgText, best: &Option<Refusal>) -> bool
    ensures { result ≡ spec.comes_first (refusal rule place name.now) best.now }
{
    match best {
        None => true,
        Some(found) => {
            place.byte < found.place.byte
                || place.byte == found.place.byte && number(rule) < number(found.rule)
        }
    }
}

fn take(
    rule: Rule,
    place: Place,
    name: &NgText,
    best: &mut Option<Refusal>,
) -> Result<(), AllocError>
    ensures { OnOk result (best.new ≡ spec.earlier best.old (refusal rule place name.now)) }
{
    if comes_first(rule, place, name, best) {
        let name = name.copy()?;
        *best = Some(Refusal { rule, place, name });
        return Ok(());
    }
    Ok(())
}

/// Takes the break of `rule` at `place` with `name`, if it is `wanted`. The name is copied only where the break becomes the least.
pub fn offer(
    wanted: bool,
    rule: Rule,
    place: Place,
    name: &NgText,
    best: &mut Option<Refusal>,
) -> Result<(), AllocError>
    ensures { OnOk result (best.new ≡ least_of best.old (broken wanted rule place name.now)) }
{
    if wanted {
        take(rule, place, name, best)?;
        return Ok(());
    }
    Ok(())
}

/// The same as `offer`, with a word as the name.
pub fn offer_word(
    alloc: Global,
    wanted: bool,
    rule: Rule,
    place: Place,
    word: &str,
    best: &mut Option<Refusal>,
) -> Result<(), AllocError>
    ensures { OnOk result (best.new ≡ least_of best.old (broken wanted rule place word.now)) }
{
    if wanted {
        let name = NgText::new(alloc, word)?;
        take(rule, place, &name, best)?;
        return Ok(());
    }
    Ok(())
}

/// Takes a break of `rule` at each of the sites, in their order.
pub fn offer_all(rule: Rule, sites: &[Site], best: &mut Option<Refusal>) -> Result<(), AllocError>
    ensures { OnOk result (best.new ≡ least_of best.old (of_rule rule sites.now)) }
{
    for site in sites {
        take(rule, site.place, &site.name, best)?;
    }
    Ok(())
}

/// Takes a break of N02, a duplicate name, at each of `names` whose name is that of an earlier one, in time linear in the bytes of the
/// names.
pub fn judge_repeats(
    alloc: Global,
    names: &[Site],
    best: &mut Option<Refusal>,
) -> Result<(), AllocError>
    ensures { OnOk result (best.new ≡ least_of best.old (of_rule rule.N02 (repeats names.now))) }
{
    let mut found = Vec::new(alloc);
    push_repeats(alloc, names, &mut found)?;
    offer_all(Rule::N02, found.as_slice(), best)?;
    Ok(())
}
