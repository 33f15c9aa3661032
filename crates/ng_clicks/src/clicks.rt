//! Why bytes are no list of clicks, and the reader.

ghost use Rattle.std.specs.Prelude.{◌≡◌, ◌≢◌, IfOk, Ok, Err, Some, None, option_map, option_and_then, length, codes};
ghost use Rattle.serde_json.specs.Data.{Data};
ghost use Rattle.serde_json.specs.View.{view, items_view};
ghost use Rattle.ng_clicks.specs.Clicks.{json_of, clicks_of, click_tag, click_tags, is_click, text_at};

use ng_values::NgText;
use serde_json::Value;
use std::alloc::{AllocError, AllocFailed, Global};

const MAX_EVENTS: usize = 10000;

/// Why bytes are no list of clicks.
#[derive(Clone, Copy, Debug, PartialEq, Eq)]
pub enum ClickError {
    /// The bytes aren't JSON.
    Syntax,
    /// They are JSON of another form.
    NotBuilt,
    Memory,
}

impl From<AllocError> for ClickError {
    ghost use Rattle.ng_clicks.specs.declared.clicks.ClickError.TheVariants.{Memory};

    ghost from_gives = { λ _ e. e ≡ Memory };

    fn from(_: AllocError) -> Self {
        ClickError::Memory
    }
}

impl<T: Drop> From<AllocFailed<T>> for ClickError {
    ghost use Rattle.ng_clicks.specs.declared.clicks.ClickError.TheVariants.{Memory};

    ghost from_gives = { λ _ e. e ≡ Memory };

    fn from(_: AllocFailed<T>) -> Self {
        ClickError::Memory
    }
}

fn text_of<'a>(event: &'a Value, name: &str) -> Option<&'a str>
    ensures { option_map (λ s. s.now) result ≡ text_at name.now (view event.now) }
{
    event.get(name)?.as_str()
}

fn is_click_event(event: Option<&str>) -> bool
    ensures { result ≡ is_click (option_map (λ s. s.now) event.entry) }
{
    match event {
        Some(event) => event == "click",
        None => false,
    }
}

#[tactic(auto, using(crate::proofs::ClickLoop::no_tag_by_event))]
fn tag_of(event: &Value) -> Option<&str>
    ensures { option_map (λ s. s.now) result ≡ click_tag (view event.now) }
{
    let members = event.as_object()?;
    if members.len() != 2 {
        return None;
    }
    if !is_click_event(text_of(event, "on")) {
        return None;
    }
    text_of(event, "tag")
}

#[tactic(auto, using(crate::proofs::ClickLoop::goes_on, crate::proofs::ClickLoop::is_none, crate::proofs::ClickLoop::is_done))]
fn tags_of(alloc: Global, events: &[Value]) -> Result<Vec<NgText>, ClickError>
    ensures ok { IfOk result (λ tags. click_tags (items_view events.now) ≡ Some tags.items) }
    ensures not_built { result ≡ Err ClickError.NotBuilt → click_tags (items_view events.now) ≡ None }
    ensures no_syntax { result ≢ Err ClickError.Syntax }
{
    let mut tags = Vec::new(alloc);
    for event in events {
        let Some(tag) = tag_of(event) else {
            return Err(ClickError::NotBuilt);
        };
        tags.push(NgText::new(alloc, tag)?)?;
    }
    Ok(tags)
}

#[tactic(auto, using(crate::proofs::ClickLoop::json_is, crate::proofs::ClickLoop::no_json))]
fn json(alloc: Global, bytes: &[u8]) -> Result<Value, ClickError>
    ensures ok { IfOk result (λ value. json_of bytes.now ≡ Some (view value)) }
    ensures syntax { result ≡ Err ClickError.Syntax → json_of bytes.now ≡ None }
    ensures built { result ≢ Err ClickError.NotBuilt }
{
    let Ok(text) = str::from_utf8(bytes) else {
        return Err(ClickError::Syntax);
    };
    match Value::from_str(alloc, text) {
        Ok(value) => Ok(value),
        Err(error) => Err(if error.is_memory() {
            ClickError::Memory
        } else {
            ClickError::Syntax
        }),
    }
}

#[tactic(auto, using(crate::proofs::ClickLoop::clicks_are, crate::proofs::ClickLoop::too_many), unfolding(crate::specs::Clicks::clicks_of))]
fn clicks(alloc: Global, events: &Value) -> Result<Vec<NgText>, ClickError>
    ensures ok { IfOk result (λ tags. clicks_of (view events.now) ≡ Some tags.items) }
    ensures not_built { result ≡ Err ClickError.NotBuilt → clicks_of (view events.now) ≡ None }
    ensures no_syntax { result ≢ Err ClickError.Syntax }
{
    let Some(list) = events.as_array() else {
        return Err(ClickError::NotBuilt);
    };
    if list.len() > MAX_EVENTS {
        return Err(ClickError::NotBuilt);
    }
    tags_of(alloc, list)
}

/// The tags of the clicks of an event file: an array of at most 10,000 objects with just `"on": "click"` and a text `tag`.
/// Linear in the bytes.
pub fn read_clicks(alloc: Global, bytes: &[u8]) -> Result<Vec<NgText>, ClickError>
    // What is read are the clicks.
    ensures ok { IfOk result (λ tags. (d : Data) × (json_of bytes.now ≡ Some d) × (clicks_of d ≡ Some tags.items)) }
    // `Syntax` says that there is no JSON reading.
    ensures syntax { result ≡ Err ClickError.Syntax → json_of bytes.now ≡ None }
    // `NotBuilt` says that there is one, and that it has another form.
    ensures not_built { result ≡ Err ClickError.NotBuilt → (d : Data) × (json_of bytes.now ≡ Some d) × (clicks_of d ≡ None) }
{
    let events = json(alloc, bytes)?;
    clicks(alloc, &events)
}
