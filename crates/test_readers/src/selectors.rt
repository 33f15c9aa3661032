//! Selectors: what matches, and which slot is taken.

use ng_ast::{Place, Selector};
use ng_selectors::{Attr, default_slot, matches, read_selector, slot_of};
use ng_values::NgText;
use std::test::Fail;

fn found(rt: &HostRuntime, text: &str) -> Result<Selector, Fail> {
    let base = Place {
        line: 1,
        column: 1,
        byte: 0,
    };
    Ok(read_selector(rt.alloc(), text, base)?)
}

// <q class="a b-c" id="x" on="">
fn element(rt: &HostRuntime) -> Result<Vec<Attr>, Fail> {
    let mut attrs = Vec::new(rt.alloc());
    for (name, value) in [("class", "a \t\nb-c "), ("id", "x"), ("on", "")] {
        let name = NgText::new(rt.alloc(), name)?;
        let value = NgText::new(rt.alloc(), value)?;
        attrs.push(Attr { name, value })?;
    }
    Ok(attrs)
}

#[test]
fn which_match(rt: HostRuntime) -> Result<(), Fail> {
    let attrs = element(&rt)?;
    for (text, expected) in [
        ("q", true),
        ("p", false),
        ("*", true),
        ("[id]", true),
        ("[ID]", false),
        ("[id=x]", true),
        ("[id=y]", false),
        ("[on]", true),
        ("[on='']", true),
        ("[off]", false),
        (".a", true),
        (".b-c", true),
        (".b", false),
        (".a.b-c", true),
        (".a.d", false),
        ("p.a", false),
        (":not(p)", true),
        (":not(q)", false),
        (":not(p.a)", true),
        (":not(*)", false),
        ("q:not(.a)", false),
        ("p,\t\n\r\x0c .a", true),
        ("p, .d", false),
    ] {
        let selector = found(&rt, text)?;
        assert_eq!(rt;
            matches(&selector, "q", attrs.as_slice()),
            expected,
            "{text}"
        );
    }
    Ok(())
}

#[test]
fn which_slot(rt: HostRuntime) -> Result<(), Fail> {
    let attrs = element(&rt)?;
    let mut slots = Vec::new(rt.alloc());
    for text in ["p", "*", ".a", "q", "*, b"] {
        slots.push(found(&rt, text)?)?;
    }
    let attrs = attrs.as_slice();
    assert_eq!(rt; slot_of(slots.as_slice(), "q", attrs), Some(2));
    assert_eq!(rt; slot_of(slots.as_slice(), "p", attrs), Some(0));
    assert_eq!(rt; slot_of(slots.as_slice(), "q", &[]), Some(3));
    assert_eq!(rt; slot_of(slots.as_slice(), "r", &[]), Some(4));
    let _ = slots.pop();
    assert_eq!(rt; slot_of(slots.as_slice(), "r", &[]), Some(1));
    assert_eq!(rt; default_slot(slots.as_slice()), Some(1));
    assert_eq!(rt; slot_of(&[], "r", &[]), None);
    Ok(())
}
