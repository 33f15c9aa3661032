//! The properties and events that elements have.

ghost use Rattle.std.specs.Prelude.{◌≡◌, bytes_eq};
ghost use Rattle.std.specs.List.{list_any};
ghost use Rattle.ng_template_rules.specs.Tables as spec;

use ng_values::NgText;

const FIRST_PROPERTIES: [&str; 10] = [
    "id",
    "title",
    "lang",
    "dir",
    "name",
    "value",
    "type",
    "placeholder",
    "href",
    "src",
];

const SECOND_PROPERTIES: [&str; 10] = [
    "alt", "min", "max", "step", "width", "height", "htmlFor", "tabIndex", "colSpan", "rowSpan",
];

const TRUTH_PROPERTIES: [&str; 8] = [
    "hidden", "disabled", "checked", "selected", "readOnly", "required", "multiple", "open",
];

const POINTER_EVENTS: [&str; 7] = [
    "click",
    "dblclick",
    "mousedown",
    "mouseup",
    "mouseenter",
    "mouseleave",
    "scroll",
];

const INPUT_EVENTS: [&str; 9] = [
    "keydown", "keyup", "keypress", "input", "change", "focus", "blur", "submit", "reset",
];

fn is_among(name: &str, names: &[&str]) -> bool
    ensures { result ≡ list_any (λ n. bytes_eq name.now n.now) names.now }
{
    names.iter().any(|known| name == *known)
}

/// Whether elements have a property of the name.
pub(crate) fn is_property(name: &NgText) -> bool
    ensures { result ≡ spec.is_property name.now }
{
    let name = name.as_str();
    is_among(name, &FIRST_PROPERTIES)
        || is_among(name, &SECOND_PROPERTIES)
        || is_among(name, &TRUTH_PROPERTIES)
}

/// Whether elements have an event of the name.
pub(crate) fn is_event(name: &NgText) -> bool
    ensures { result ≡ spec.is_event name.now }
{
    let name = name.as_str();
    is_among(name, &POINTER_EVENTS) || is_among(name, &INPUT_EVENTS)
}
