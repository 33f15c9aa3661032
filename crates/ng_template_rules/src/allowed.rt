//! Which attributes an element may have.

ghost use Rattle.std.specs.Prelude.{◌≡◌, ◌++◌, ◌||◌, false, codes, not, OnOk};
ghost use Rattle.std.specs.List.{flat_map};
ghost use Rattle.ng_ast.specs.declared.refusals.Rule.TheVariants as rule;
ghost use Rattle.ng_breaks.specs.Least.{broken, least_of};
ghost use Rattle.ng_scopes.specs.Templates as templates;
ghost use Rattle.ng_template_rules.specs.ElementRules as spec;

use ng_ast::{AttrForm, Refusal, Rule, TAttr};
use ng_breaks::offer;
use ng_values::NgText;
use std::alloc::AllocError;

/// Whether the tag is `ng-template`.
pub(crate) fn is_template(tag: &NgText) -> bool
    ensures { result ≡ templates.is_template tag.now }
{
    tag.as_str() == "ng-template"
}

/// Whether the tag is `ng-content`.
pub(crate) fn is_content(tag: &NgText) -> bool
    ensures { result ≡ templates.is_content tag.now }
{
    tag.as_str() == "ng-content"
}

fn is_container(tag: &NgText) -> bool
    ensures { result ≡ spec.is_container tag.now }
{
    tag.as_str() == "ng-container"
}

fn is_select(name: &NgText, form: &AttrForm) -> bool
    ensures { result ≡ spec.is_select name.now form.now }
{
    match form {
        AttrForm::Static(_) => name.as_str() == "select",
        AttrForm::Joined(_) => false,
        AttrForm::Property(_) => false,
        AttrForm::Attribute(_) => false,
        AttrForm::Class(_) => false,
        AttrForm::Style(_, _) => false,
        AttrForm::Listener(_) => false,
        AttrForm::Both(_) => false,
        AttrForm::Reference => false,
        AttrForm::Variable(_) => false,
        AttrForm::Outlet(_) => false,
        AttrForm::Context(_) => false,
    }
}

fn fits_container(form: &AttrForm) -> bool
    ensures { result ≡ spec.fits_container form.now }
{
    matches!(
        form,
        AttrForm::Static(_) | AttrForm::Outlet(_) | AttrForm::Context(_)
    )
}

fn fits_element(form: &AttrForm) -> bool
    ensures { result ≡ spec.fits_element form.now }
{
    !matches!(
        form,
        AttrForm::Outlet(_) | AttrForm::Context(_) | AttrForm::Variable(_)
    )
}

fn is_reference_form(form: &AttrForm) -> bool
    ensures { result ≡ spec.is_reference_form form.now }
{
    matches!(form, AttrForm::Reference)
}

fn is_let_form(form: &AttrForm) -> bool
    ensures { result ≡ spec.is_let_form form.now }
{
    matches!(form, AttrForm::Variable(_))
}

fn is_allowed(tag: &NgText, attr: &TAttr) -> bool
    ensures { result ≡ spec.is_allowed tag.now attr.now }
{
    if is_content(tag) {
        return is_select(&attr.name, &attr.form);
    }
    if is_container(tag) {
        return fits_container(&attr.form);
    }
    fits_element(&attr.form)
}

fn judge_template(
    tag: &NgText,
    attrs: &[TAttr],
    best: &mut Option<Refusal>,
) -> Result<(), AllocError>
    ensures { OnOk result (best.new ≡ least_of best.old (spec.template_breaks tag.now false attrs.now)) }
{
    let mut referred = false;
    for attr in attrs {
        let is_reference = is_reference_form(&attr.form);
        let allowed = is_let_form(&attr.form) || is_reference && !referred;
        offer(!allowed, Rule::N25, attr.place, tag, best)?;
        referred = referred || is_reference;
    }
    Ok(())
}

fn judge_others(tag: &NgText, attrs: &[TAttr], best: &mut Option<Refusal>) -> Result<(), AllocError>
    ensures { OnOk result (best.new ≡ least_of best.old (flat_map (λ a. broken (not (spec.is_allowed tag.now a)) rule.N25 a.place tag.now) attrs.now)) }
{
    for attr in attrs {
        offer(!is_allowed(tag, attr), Rule::N25, attr.place, tag, best)?;
    }
    Ok(())
}

/// Takes the attributes that the element may not have.
pub(crate) fn judge_allowed(
    tag: &NgText,
    attrs: &[TAttr],
    best: &mut Option<Refusal>,
) -> Result<(), AllocError>
    ensures { OnOk result (best.new ≡ least_of best.old (spec.allowed_breaks tag.now attrs.now)) }
{
    if is_template(tag) {
        judge_template(tag, attrs, best)?;
        return Ok(());
    }
    judge_others(tag, attrs, best)?;
    Ok(())
}
