ghost use Rattle.std.specs.Prelude.{◌≡◌, ◌≤◌, OnOk, OnErr, IsErrOf};
ghost use Rattle.ng_outside.specs.Causes.{Rose};
ghost use Rattle.ng_cli.specs.Causes.{Wrote, WrotePart};

use ng_outside::{Sink, SinkError};

// Puts the whole text, piece by piece. After an error a beginning of it was taken.
pub(crate) fn put_all<K: Sink>(sink: &mut K, text: &[u8]) -> Result<(), SinkError>
    ensures whole { OnOk result (Wrote (K.taken sink.old) (K.taken sink.new) text.now) }
    ensures part { OnErr result (WrotePart (K.taken sink.old) (K.taken sink.new) text.now) }
    ensures failed { IsErrOf result SinkError.Failed → Rose (K.faults sink.old) (K.faults sink.new) }
    ensures faults_grow { K.faults sink.old ≤ K.faults sink.new }
{
    let mut done = 0;
    while done < text.len() {
        done += sink.put(&text[done..])?;
    }
    Ok(())
}
