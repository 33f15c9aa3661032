//! The templates of an application.

ghost use Rattle.std.specs.Prelude.{◌≡◌, map, OnOk};
ghost use Rattle.std.specs.List.{flat_map};
ghost use Rattle.ng_breaks.specs.Least.{least_of};
ghost use Rattle.ng_hosts.specs.Index.{IsIndex};
ghost use Rattle.ng_template_rules.specs.TemplateRules as spec;

use crate::nodes::judge_template;
use ng_ast::{Component, Decl, Refusal};
use ng_hosts::{SelectorIndex, components_of, selector_index};
use std::alloc::{AllocError, Global};

fn judge_each(
    alloc: Global,
    components: &[&Component],
    index: &SelectorIndex,
    best: &mut Option<Refusal>,
) -> Result<(), AllocError>
    requires { IsIndex index.now (map (λ c. c.now) components.now) }
    ensures { OnOk result (best.new ≡ least_of best.old (flat_map (spec.component_breaks (map (λ c. c.now) components.now)) (map (λ c. c.now) components.now))) }
{
    for component in components {
        judge_template(
            alloc,
            components,
            index,
            &component.name,
            component.template.nodes.as_slice(),
            best,
        )?;
    }
    Ok(())
}

/// Takes the breaks of the rules on templates at the templates of all components of an application, of which each rule has a definition in
/// `specs/`. What is taken goes into `best`; the only error is want of memory. The rules are:
///
/// - N02: an element gives a plain attribute, a binding, a listener or an input twice, or a view has a reference, or a variable or `@let`,
///   twice;
/// - N03 and N04: a tag with a dash matches no component, or an element matches two;
/// - N05, N06 and N07: a binding is no input and no property, a required input isn't given, a listener is no output and no event;
/// - N17 and N18: a slot stands twice, or where it would be repeated;
/// - N25, N27 and N28: an attribute that isn't allowed where it stands, a second `@default`, a `@for` without `track`.
///
/// What they speak of is after Angular's templates (<https://angular.dev/guide/templates>) and content projection
/// (<https://angular.dev/guide/components/content-projection>); the rules as they are divided and numbered are this project's own.
///
/// An element is tried against the alternatives of selectors that stand by its attributes, its classes or its tag, as
/// `ng_hosts::host_positions` tells. Besides, the time is linear in the nodes, times the depth of `@for`s and `ng-template`s in one
/// another, the members of a host for each attribute, and the slots of the template for each `ng-content`.
pub fn judge_templates(
    alloc: Global,
    decls: &[Decl],
    best: &mut Option<Refusal>,
) -> Result<(), AllocError>
    ensures { OnOk result (best.new ≡ least_of best.old (spec.templates_breaks decls.now)) }
{
    let components = components_of(alloc, decls)?;
    let index = selector_index(alloc, components.as_slice())?;
    judge_each(alloc, components.as_slice(), &index, best)?;
    Ok(())
}
