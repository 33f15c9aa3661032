ghost use Rattle.std.specs.Prelude.{◌≡◌, [], ◌∷◌, ◌++◌, IfOk, OnOk, string_bytes};
ghost use Rattle.std.specs.Option.{option_map};
ghost use Rattle.ng_semantics.specs.Lines.{fault_text, outcome_text, event_line, page_line, turn_lines, end_line};
ghost use Rattle.ng_update.specs.Clicked.{outcome_in};
ghost use Rattle.ng_update.specs.Running.{page_of};
ghost use Rattle.ng_cli.specs.Steps.{outcome_told};

use ng_update::{Delivered, FlatEngine};
use ng_values::{Fault, NgText};
use std::alloc::{AllocError, Global};

// The name of a fault, and the token that it has in brackets.
fn push_with_token(text: &mut String, name: &str, token: &NgText) -> Result<(), AllocError>
    ensures { OnOk result (string_bytes text.new ≡ string_bytes text.old ++ (name.now ++ (token.now ++ 41 ∷ []))) }
{
    text.push_str(name)?;
    text.push_str(token.as_str())?;
    text.push_str(")")
}

// Adds the name of a fault.
fn push_fault(text: &mut String, fault: &Fault) -> Result<(), AllocError>
    ensures { OnOk result (string_bytes text.new ≡ string_bytes text.old ++ fault_text fault.now) }
{
    match fault {
        Fault::Overflow => text.push_str("Overflow"),
        Fault::DivideByZero => text.push_str("DivideByZero"),
        Fault::WrongKind => text.push_str("WrongKind"),
        Fault::NullRead => text.push_str("NullRead"),
        Fault::NoMember => text.push_str("NoMember"),
        Fault::ValueTooLarge => text.push_str("ValueTooLarge"),
        Fault::ValueTooDeep => text.push_str("ValueTooDeep"),
        Fault::CallTooDeep => text.push_str("CallTooDeep"),
        Fault::CallLimit => text.push_str("CallLimit"),
        Fault::HandlerLimit => text.push_str("HandlerLimit"),
        Fault::NoProvider(token) => push_with_token(text, "NoProvider(", token),
        Fault::CircularDependency(token) => push_with_token(text, "CircularDependency(", token),
    }
}

// Adds what came of an event.
fn push_outcome(text: &mut String, delivered: &Delivered) -> Result<(), AllocError>
    ensures { OnOk result (string_bytes text.new ≡ string_bytes text.old ++ outcome_text (outcome_in delivered.now)) }
{
    match delivered {
        Delivered::Ran => text.push_str("ran"),
        Delivered::Fault(fault) => {
            text.push_str("fault ")?;
            push_fault(text, fault)
        }
        Delivered::NoTarget => text.push_str("no-target"),
        Delivered::NoListener => text.push_str("no-listener"),
    }
}

// The line of an event, or nothing where there was none.
fn event_line(
    alloc: Global,
    number: u64,
    delivered: Option<&Delivered>,
) -> Result<String, AllocError>
    ensures { IfOk result (λ text. string_bytes text ≡ event_line number (outcome_told delivered.entry)) }
{
    let Some(delivered) = delivered else {
        return Ok(String::new(alloc));
    };
    let mut text = format!(in alloc; "event {number} ")?;
    push_outcome(&mut text, delivered)?;
    text.push_str("\n")?;
    Ok(text)
}

// The lines of the first pass, or of an event and the pass after it.
pub(crate) fn turn_text(
    alloc: Global,
    number: u64,
    delivered: Option<&Delivered>,
    engine: &FlatEngine,
) -> Result<Vec<u8>, AllocError>
    ensures { IfOk result (λ text. text.items ≡ turn_lines number (record { outcome = outcome_told delivered.entry; page = page_of engine.now })) }
{
    let event = event_line(alloc, number, delivered)?;
    let head = format!(in alloc; "page {number}\n")?;
    let page = engine.page()?;
    let mut text = Vec::new(alloc);
    text.extend_from_slice(event.as_bytes())?;
    text.extend_from_slice(head.as_bytes())?;
    text.extend_from_slice(&page)?;
    text.push(b'\n')?;
    Ok(text)
}

// The last line.
pub(crate) fn end_text(alloc: Global, events: u64) -> Result<String, AllocError>
    ensures { IfOk result (λ text. string_bytes text ≡ end_line events) }
{
    format!(in alloc; "end {events}\n")
}
