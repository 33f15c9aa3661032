ghost use Rattle.std.specs.Prelude.{◌≡◌, ◌⊎◌, ◌≤◌, ℕ, List, map, Some, None};
ghost use Rattle.ng_ast.specs.declared.Component.{Component};
ghost use Rattle.ng_outside.specs.Causes.{Rose};
ghost use Rattle.ng_semantics.specs.Text.{Text};
ghost use Rattle.ng_semantics.specs.First.{IsAlone, IsFirst};
ghost use Rattle.ng_semantics.specs.Lines.{lines};
ghost use Rattle.ng_cli.specs.Allowed.{Allowed, click};
ghost use Rattle.ng_cli.specs.Causes.{WroteAllowed, WroteFront, FetchFailed, NoneFailed};
ghost use Rattle.ng_cli.specs.Ends.{PutEnds, StopEnds, Ends, AllTold};
ghost use Rattle.ng_cli.specs.Steps.{texts, line_of, says};
ghost use Rattle.ng_cli.specs.Words.{Task as Task', Runs, Checks, task_of};

use crate::inputs::{Stop, fetch_app, fetch_built, fetch_clicks};
use crate::put::put_all;
use crate::refusal::Refusal;
use crate::session::session;
use crate::status::Status;
use crate::words::{Task, read_task};
use ng_ast::App;
use ng_outside::{Shelf, Sink};
use ng_rules::quiet;
use ng_update::FlatEngine;
use ng_values::NgText;
use ng_words::Refused;
use std::alloc::Global;

// What is written where the words ask for nothing that is there.
const USAGE: &str = "usage: ivy run [--every] [--ops] [--report] [--trace] APP EVENTS
       ivy check APP
       ivy compile APP
       ivy gen N
";

// Puts a text that ends the call.
fn put_end<K: Sink>(sink: &mut K, text: &[u8], end: Status) -> Status
    ensures { PutEnds end text.now (K.taken sink.old) (K.taken sink.new) (K.faults sink.old) (K.faults sink.new) result }
{
    end.unless_stopped(put_all(sink, text))
}

// Writes the line of a refusal.
fn refuse<K: Sink>(alloc: Global, refusal: &Refusal, sink: &mut K) -> Status
    ensures { PutEnds Status.Refused (line_of refusal.now) (K.taken sink.old) (K.taken sink.new) (K.faults sink.old) (K.faults sink.new) result }
{
    match refusal.line(alloc) {
        Ok(line) => put_end(sink, line.as_bytes(), Status::Refused),
        Err(_) => Status::NoMemory,
    }
}

// Ends a call that has nothing to run.
fn stopped<K: Sink>(alloc: Global, stop: &Stop, sink: &mut K) -> Status
    ensures { StopEnds stop.now (K.taken sink.old) (K.taken sink.new) (K.faults sink.old) (K.faults sink.new) result }
{
    match stop {
        Stop::Refused(refusal) => refuse(alloc, refusal, sink),
        Stop::Failed => Status::NoFile,
        Stop::Memory => Status::NoMemory,
    }
}

// Runs an application over clicks on elements of these tags.
fn run<K: Sink>(alloc: Global, app: App, tags: &[NgText], sink: &mut K) -> Status
    requires { (c : Component) × IsAlone app c × IsFirst c }
    ensures { (c : Component) → IsAlone app c →
        PutEnds Status.Done (lines c (map click tags.now)) (K.taken sink.old) (K.taken sink.new) (K.faults sink.old) (K.faults sink.new) result }
{
    match FlatEngine::start(alloc, app) {
        Ok(engine) => Status::Done.unless_stopped(session(alloc, engine, tags, sink)),
        Err(_) => Status::NoMemory,
    }
}

// Fetches both files and runs the one over the other.
fn run_files<H: Shelf, K: Sink>(
    alloc: Global,
    app: &str,
    events: &str,
    shelf: &mut H,
    sink: &mut K,
) -> Status
    ensures { (words : List Text) → task_of words ≡ Some (Runs app.now events.now) →
        Ends words (H.told shelf.old) (H.faults shelf.old) (H.faults shelf.new) (K.taken sink.old) (K.taken sink.new) (K.faults sink.old) (K.faults sink.new) result }
{
    let app = match fetch_built(alloc, shelf, app) {
        Ok(app) => app,
        Err(stop) => return stopped(alloc, &stop, sink),
    };
    let tags = match fetch_clicks(alloc, shelf, events) {
        Ok(tags) => tags,
        Err(stop) => return stopped(alloc, &stop, sink),
    };
    run(alloc, app, &tags, sink)
}

// What a check says of a sound application.
fn says(quiet: bool) -> &'static str
    ensures { result.now ≡ says quiet }
{
    if quiet {
        "sound quiet\n"
    } else {
        "sound not-quiet\n"
    }
}

// Fetches the application, checks it and writes what it is.
fn check_file<H: Shelf, K: Sink>(alloc: Global, app: &str, shelf: &mut H, sink: &mut K) -> Status
    ensures { (words : List Text) → task_of words ≡ Some (Checks app.now) →
        Ends words (H.told shelf.old) (H.faults shelf.old) (H.faults shelf.new) (K.taken sink.old) (K.taken sink.new) (K.faults sink.old) (K.faults sink.new) result }
{
    let app = match fetch_app(alloc, shelf, app) {
        Ok(app) => app,
        Err(stop) => return stopped(alloc, &stop, sink),
    };
    match quiet(alloc, &app) {
        Ok(quiet) => put_end(sink, says(quiet).as_bytes(), Status::Done),
        Err(_) => Status::NoMemory,
    }
}

// What the words ask for.
fn answer<H: Shelf, K: Sink>(alloc: Global, words: &[String], shelf: &mut H, sink: &mut K) -> Status
    ensures { Ends (texts words.now) (H.told shelf.old) (H.faults shelf.old) (H.faults shelf.new) (K.taken sink.old) (K.taken sink.new) (K.faults sink.old) (K.faults sink.new) result }
{
    match read_task(alloc, words) {
        Ok(Task::Run(app, events)) => run_files(alloc, app, events, shelf, sink),
        Ok(Task::Check(app)) => check_file(alloc, app, shelf, sink),
        Err(Refused::Words) => put_end(sink, USAGE.as_bytes(), Status::Usage),
        Err(Refused::Memory) => Status::NoMemory,
    }
}

/// Does what the words ask for, which don't contain the program's name, and answers the exit status. They are read with
/// `clap`. `run --every APP EVENTS` and `check APP` are what can be done by now. The first fetches both files from the shelf and puts the
/// page after every event into the sink; the second fetches the application and puts whether it is quiet.
///
/// | status | when |
/// |---|---|
/// | 0 | the list of events was taken to its end, or the application is sound |
/// | 1 | memory ran out |
/// | 2 | the words are others; the usage text was written |
/// | 3 | a file is refused; the line that says so was written |
/// | 5 | a file couldn't be fetched; nothing was written |
/// | 6 | the output couldn't be put |
///
/// The time of a run is linear in the bytes that are put and in the application, but for the check of its rules.
pub fn ivy<H: Shelf, K: Sink>(alloc: Global, words: &[String], shelf: &mut H, sink: &mut K) -> u8
    // Where the files are told, what was written is allowed with the status.
    ensures allowed { (result ≡ 0) ⊎ ((result ≡ 2) ⊎ (result ≡ 3)) → AllTold (texts words.now) (H.told shelf.old) →
        WroteAllowed (texts words.now) (H.told shelf.old) result (K.taken sink.old) (K.taken sink.new) }

    // Words that are accepted, over told files and with no failure, end with 0 or 3, or memory ran out.
    ensures complete { (task : Task') → task_of (texts words.now) ≡ Some task → NoneFailed task (H.faults shelf.old) (H.faults shelf.new) →
        (Rose (K.faults sink.old) (K.faults sink.new) → ⊥) → (result ≡ 0) ⊎ ((result ≡ 3) ⊎ (result ≡ 1)) }
    ensures complete_usage { task_of (texts words.now) ≡ None → (Rose (K.faults sink.old) (K.faults sink.new) → ⊥) →
        ((result ≡ 2) × WroteAllowed (texts words.now) (H.told shelf.old) 2 (K.taken sink.old) (K.taken sink.new)) ⊎ (result ≡ 1) }

    // Each status by its cause.
    ensures two { result ≡ 2 → task_of (texts words.now) ≡ None }
    ensures three { AllTold (texts words.now) (H.told shelf.old) → (line : Text) → Allowed (texts words.now) (H.told shelf.old) 3 line → (result ≡ 0) → ⊥ }
    ensures five { result ≡ 5 → FetchFailed (texts words.now) (H.told shelf.old) (H.faults shelf.old) (H.faults shelf.new) }
    ensures six { result ≡ 6 → Rose (K.faults sink.old) (K.faults sink.new) }

    // What was written where the call ended early.
    ensures nothing { result ≡ 5 → K.taken sink.new ≡ K.taken sink.old }
    ensures front { (result ≡ 1) ⊎ (result ≡ 6) → AllTold (texts words.now) (H.told shelf.old) →
        WroteFront (texts words.now) (H.told shelf.old) (K.taken sink.old) (K.taken sink.new) ⊎ (K.taken sink.new ≡ K.taken sink.old) }
{
    answer(alloc, words, shelf, sink).code()
}
