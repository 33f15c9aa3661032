ghost use Rattle.std.specs.Prelude.{◌≡◌, ◌≤◌, ℕ, List, length, map, Some, None, IfOk, IfErr, IfSome};
ghost use Rattle.ng_ast.specs.declared.Component.{Component};
ghost use Rattle.ng_semantics.specs.First.{IsAlone, IsFirst};
ghost use Rattle.ng_unbuilt.specs.Forms.{forms};
ghost use Rattle.ng_unbuilt.specs.Least.{least};
ghost use Rattle.ng_ready.specs.Sized.{AreSized};
ghost use Rattle.ng_cli.specs.Allowed.{IsBuilt};
ghost use Rattle.ng_cli.specs.Words.{Runs};
ghost use Rattle.ng_cli.specs.Refusals.{IsSoundApp, AreClicks, app_limit, events_limit};
ghost use Rattle.ng_cli.specs.Steps.{Unread, Unsound, IsUnbuilt, AppStop, TaskStop, EventsStop, AppReadStop, EventsReadStop};

use crate::refusal::Refusal;
use ng_app::read_app;
use ng_ast::{App, ReadError};
use ng_clicks::{ClickError, read_clicks};
use ng_outside::{FetchError, Shelf};
use ng_ready::{readings_are_sized, sound_applications_are_first};
use ng_rules::{CheckError, SoundApp, check, unbuilt};
use ng_values::NgText;
use std::alloc::Global;

// The most bytes of an application.
const APP_LIMIT: usize = 1_048_576;

// The most bytes of an event file.
const EVENTS_LIMIT: usize = 4_194_304;

/// Why there is nothing to run.
#[derive(Debug, Drop)]
pub enum Stop {
    /// A file is refused.
    Refused(Refusal),
    /// A file couldn't be fetched.
    Failed,
    /// Memory ran out.
    Memory,
}

// Why an application isn't read.
fn unread(error: ReadError) -> Stop
    ensures { Unread error result }
{
    match error {
        ReadError::Utf8 => Stop::Refused(Refusal::AppUtf8),
        ReadError::Syntax(refusal) => Stop::Refused(Refusal::AppSyntax(refusal.place)),
        ReadError::Limit(refusal) => Stop::Refused(Refusal::AppLimit(refusal.place)),
        ReadError::Memory => Stop::Memory,
    }
}

// Why an application isn't sound.
fn unsound(error: CheckError) -> Stop
    ensures { Unsound error result }
{
    match error {
        CheckError::Refused(refusal, app) => {
            drop(app);
            Stop::Refused(Refusal::AppBroken(refusal))
        }
        CheckError::Memory(app) => {
            drop(app);
            Stop::Memory
        }
    }
}

// The sound application that these bytes are.
fn sound_of(alloc: Global, bytes: &[u8]) -> Result<SoundApp, Stop>
    requires { length bytes.now ≤ app_limit }
    ensures ok { IfOk result (IsSoundApp bytes.now) }
    ensures sized { IfOk result AreSized }
    ensures err { IfErr result (AppReadStop bytes.now) }
{
    let app = match read_app(alloc, bytes) {
        Ok(app) => app,
        Err(error) => return Err(unread(error)),
    };
    readings_are_sized();
    match check(alloc, app) {
        Ok(sound) => Ok(sound),
        Err(error) => Err(unsound(error)),
    }
}

// Fetches the application of this name, reads it and checks it.
pub(crate) fn fetch_app<H: Shelf>(
    alloc: Global,
    shelf: &mut H,
    name: &str,
) -> Result<SoundApp, Stop>
    ensures ok { IfOk result (λ app. IfSome (H.told shelf.old name.now) (λ bytes. IsSoundApp bytes app)) }
    ensures sized { IfOk result AreSized }
    ensures err { IfErr result (AppStop (H.told shelf.old name.now) (H.faults shelf.old name.now) (H.faults shelf.new name.now)) }
    ensures same_told { (other : List ℕ) → H.told shelf.new other ≡ H.told shelf.old other }
    ensures faults_grow { (other : List ℕ) → H.faults shelf.old other ≤ H.faults shelf.new other }
{
    match shelf.fetch(alloc, name, APP_LIMIT) {
        Ok(bytes) => sound_of(alloc, &bytes),
        Err(FetchError::TooLong) => Err(Stop::Refused(Refusal::AppTooLong)),
        Err(FetchError::Failed) => Err(Stop::Failed),
        Err(FetchError::Memory) => Err(Stop::Memory),
    }
}

// The application, where a run of it is built.
fn built(app: SoundApp) -> Result<App, Refusal>
    requires { AreSized app }
    ensures ok { IfOk result (λ found. (found ≡ app) × (least (forms app) ≡ None)) }
    ensures form { IfOk result (λ found. (c : Component) × IsAlone found c × IsFirst c) }
    ensures err { IfErr result (IsUnbuilt app) }
{
    sound_applications_are_first();
    match unbuilt(&app) {
        None => Ok(app.into_app()),
        Some(place) => Err(Refusal::AppNotBuilt(place)),
    }
}

// Fetches the application of this name for a run.
pub(crate) fn fetch_built<H: Shelf>(alloc: Global, shelf: &mut H, name: &str) -> Result<App, Stop>
    ensures ok { IfOk result (λ app. IfSome (H.told shelf.old name.now) (λ bytes. IsBuilt bytes app)) }
    ensures form { IfOk result (λ app. (c : Component) × IsAlone app c × IsFirst c) }
    ensures err { (events : List ℕ) → IfErr result (TaskStop (Runs name.now events) (H.told shelf.old name.now) (H.faults shelf.old name.now) (H.faults shelf.new name.now)) }
    ensures same_told { (other : List ℕ) → H.told shelf.new other ≡ H.told shelf.old other }
    ensures faults_grow { (other : List ℕ) → H.faults shelf.old other ≤ H.faults shelf.new other }
{
    match fetch_app(alloc, shelf, name) {
        Ok(app) => match built(app) {
            Ok(app) => Ok(app),
            Err(refusal) => Err(Stop::Refused(refusal)),
        },
        Err(stop) => Err(stop),
    }
}

// The tags of the clicks that these bytes are.
fn clicks_of(alloc: Global, bytes: &[u8]) -> Result<Vec<NgText>, Stop>
    requires { length bytes.now ≤ events_limit }
    ensures ok { IfOk result (λ tags. AreClicks bytes.now tags.items) }
    ensures err { IfErr result (EventsReadStop bytes.now) }
{
    match read_clicks(alloc, bytes) {
        Ok(tags) => Ok(tags),
        Err(ClickError::Syntax) => Err(Stop::Refused(Refusal::EventsSyntax)),
        Err(ClickError::NotBuilt) => Err(Stop::Refused(Refusal::EventsNotBuilt)),
        Err(ClickError::Memory) => Err(Stop::Memory),
    }
}

// Fetches the events of this name and reads them.
pub(crate) fn fetch_clicks<H: Shelf>(
    alloc: Global,
    shelf: &mut H,
    name: &str,
) -> Result<Vec<NgText>, Stop>
    ensures ok { IfOk result (λ tags. IfSome (H.told shelf.old name.now) (λ bytes. AreClicks bytes tags.items)) }
    ensures err { IfErr result (EventsStop (H.told shelf.old name.now) (H.faults shelf.old name.now) (H.faults shelf.new name.now)) }
    ensures same_told { (other : List ℕ) → H.told shelf.new other ≡ H.told shelf.old other }
    ensures faults_grow { (other : List ℕ) → H.faults shelf.old other ≤ H.faults shelf.new other }
{
    match shelf.fetch(alloc, name, EVENTS_LIMIT) {
        Ok(bytes) => clicks_of(alloc, &bytes),
        Err(FetchError::TooLong) => Err(Stop::Refused(Refusal::EventsTooLong)),
        Err(FetchError::Failed) => Err(Stop::Failed),
        Err(FetchError::Memory) => Err(Stop::Memory),
    }
}
