ghost use Rattle.std.specs.Prelude.{◌≡◌, ◌≤◌, OnOk, OnErr, IsErrOf, length};
ghost use Rattle.ng_outside.specs.Causes.{Rose};
ghost use Rattle.ng_semantics.specs.Lines.{turn_lines, end_line};
ghost use Rattle.ng_update.specs.Running.{page_of};
ghost use Rattle.ng_cli.specs.Causes.{Wrote, WrotePart};
ghost use Rattle.ng_cli.specs.Steps.{outcome_told, whole_run};

use crate::lines::{end_text, turn_text};
use crate::put::put_all;
use ng_outside::{Sink, SinkError};
use ng_update::{Delivered, FlatEngine};
use ng_values::NgText;
use std::alloc::Global;

// Writes the lines of the first pass, or of an event and the pass after it.
fn put_turn<K: Sink>(
    alloc: Global,
    number: u64,
    delivered: Option<&Delivered>,
    engine: &FlatEngine,
    sink: &mut K,
) -> Result<(), SinkError>
    ensures whole { OnOk result (Wrote (K.taken sink.old) (K.taken sink.new) (turn_lines number (record { outcome = outcome_told delivered.entry; page = page_of engine.now }))) }
    ensures part { OnErr result (WrotePart (K.taken sink.old) (K.taken sink.new) (turn_lines number (record { outcome = outcome_told delivered.entry; page = page_of engine.now }))) }
    ensures failed { IsErrOf result SinkError.Failed → Rose (K.faults sink.old) (K.faults sink.new) }
    ensures faults_grow { K.faults sink.old ≤ K.faults sink.new }
{
    match turn_text(alloc, number, delivered, engine) {
        Ok(text) => put_all(sink, &text),
        Err(_) => Err(SinkError::Memory),
    }
}

// Writes the last line.
fn put_end<K: Sink>(alloc: Global, events: u64, sink: &mut K) -> Result<(), SinkError>
    ensures whole { OnOk result (Wrote (K.taken sink.old) (K.taken sink.new) (end_line events)) }
    ensures part { OnErr result (WrotePart (K.taken sink.old) (K.taken sink.new) (end_line events)) }
    ensures failed { IsErrOf result SinkError.Failed → Rose (K.faults sink.old) (K.faults sink.new) }
    ensures faults_grow { K.faults sink.old ≤ K.faults sink.new }
{
    match end_text(alloc, events) {
        Ok(text) => put_all(sink, text.as_bytes()),
        Err(_) => Err(SinkError::Memory),
    }
}

// Runs an engine over clicks on elements of these tags, and writes the lines of the run.
pub(crate) fn session<K: Sink>(
    alloc: Global,
    mut engine: FlatEngine,
    tags: &[NgText],
    sink: &mut K,
) -> Result<(), SinkError>
    ensures whole { OnOk result (Wrote (K.taken sink.old) (K.taken sink.new) (whole_run engine tags.now)) }
    ensures part { OnErr result (WrotePart (K.taken sink.old) (K.taken sink.new) (whole_run engine tags.now)) }
    ensures failed { IsErrOf result SinkError.Failed → Rose (K.faults sink.old) (K.faults sink.new) }
    ensures faults_grow { K.faults sink.old ≤ K.faults sink.new }
{
    put_turn(alloc, 0, None, &engine, sink)?;
    for (index, tag) in tags.iter().enumerate() {
        let delivered = engine.click(tag.as_str());
        put_turn(alloc, index as u64 + 1, Some(&delivered), &engine, sink)?;
    }
    put_end(alloc, tags.len() as u64, sink)
}
