//! The components that an element matches.

ghost use Rattle.std.specs.Prelude.{◌≡◌, map, OnOk};
ghost use Rattle.std.specs.Option.{option_copied};
ghost use Rattle.ng_breaks.specs.Least.{least_of};
ghost use Rattle.ng_hosts.specs.Index.{IsIndex};
ghost use Rattle.ng_hosts.specs.Hosts.{hosts as hosts_among};
ghost use Rattle.ng_template_rules.specs.ElementRules as element;

use crate::allowed::judge_allowed;
use crate::elements::{judge_attr_repeats, judge_inputs, judge_outputs, judge_required};
use ng_ast::{Component, Place, Refusal, Rule, TAttr};
use ng_breaks::offer;
use ng_hosts::{SelectorIndex, hosts_of, is_reserved};
use ng_values::NgText;
use std::alloc::{AllocError, Global};

fn is_dashed(tag: &NgText) -> bool
    ensures { result ≡ element.is_dashed tag.now }
{
    tag.as_str().as_bytes().iter().any(|byte| *byte == b'-')
}

fn judge_matches(
    place: Place,
    tag: &NgText,
    hosts: &[&Component],
    best: &mut Option<Refusal>,
) -> Result<(), AllocError>
    ensures { OnOk result (best.new ≡ least_of best.old (element.host_breaks place tag.now (map (λ c. c.now) hosts.now))) }
{
    match hosts {
        [] => {
            offer(
                is_dashed(tag) && !is_reserved(tag),
                Rule::N03,
                place,
                tag,
                best,
            )?;
            Ok(())
        }
        [_] => Ok(()),
        [_, _, ..] => {
            offer(true, Rule::N04, place, tag, best)?;
            Ok(())
        }
    }
}

fn first_of<'a>(hosts: &[&'a Component]) -> Option<&'a Component>
    ensures { option_copied result ≡ element.host_of (map (λ c. c.now) hosts.now) }
{
    match hosts {
        [] => None,
        [component, ..] => Some(*component),
    }
}

/// Takes the breaks of an element that these components match.
#[tactic(auto, using(ng_breaks::specs::LeastLaws::least_laws))]
fn judge_element(
    alloc: Global,
    hosts: &[&Component],
    place: Place,
    tag: &NgText,
    attrs: &[TAttr],
    best: &mut Option<Refusal>,
) -> Result<(), AllocError>
    ensures { OnOk result (best.new ≡ least_of best.old (element.element_breaks (map (λ c. c.now) hosts.now) place tag.now attrs.now)) }
{
    let host = first_of(hosts);
    judge_attr_repeats(alloc, host, attrs, best)?;
    judge_matches(place, tag, hosts, best)?;
    judge_inputs(alloc, host, attrs, best)?;
    judge_required(alloc, place, host, attrs, best)?;
    judge_outputs(alloc, host, attrs, best)?;
    judge_allowed(tag, attrs, best)?;
    Ok(())
}

/// Takes the breaks of an element among the components of the application.
pub(crate) fn judge_host(
    alloc: Global,
    components: &[&Component],
    index: &SelectorIndex,
    place: Place,
    tag: &NgText,
    attrs: &[TAttr],
    best: &mut Option<Refusal>,
) -> Result<(), AllocError>
    requires { IsIndex index.now (map (λ c. c.now) components.now) }
    ensures { OnOk result (best.new ≡ least_of best.old (element.element_breaks (hosts_among (map (λ c. c.now) components.now) tag.now attrs.now) place tag.now attrs.now)) }
{
    let hosts = hosts_of(alloc, components, index, tag, attrs)?;
    judge_element(alloc, hosts.as_slice(), place, tag, attrs, best)?;
    Ok(())
}
