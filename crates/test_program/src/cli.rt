//! The whole call over shelves and sinks in memory: sure ones, and ones where a fetch or a put fails.

ghost use Rattle.std.specs.Prelude.{◌≡◌, ◌≢◌};

use ng_cli::ivy;
use ng_outside::{MemShelf, MemSink, SureShelf, SureSink};
use std::alloc::{AllocError, Global};
use std::test::Fail;

const COUNTER: &str = "component Counter {
  selector 'app-counter';
  field n = 0;
  template `<button (click)=\"n = n + 1\">Clicked {{ n }}</button>`;
}
bootstrap Counter;
";

const CLICKS: &str =
    "[{\"on\": \"click\", \"tag\": \"button\"}, {\"on\": \"click\", \"tag\": \"button\"}]";

const PAGES: &str = "page 0
<app-counter><button>Clicked 0</button></app-counter>
event 1 ran
page 1
<app-counter><button>Clicked 1</button></app-counter>
event 2 ran
page 2
<app-counter><button>Clicked 2</button></app-counter>
end 2
";

// Over a shelf and a sink that never fail, no call ends with 5 or 6.
fn surely(alloc: Global, words: &[String], shelf: &mut SureShelf, sink: &mut SureSink) -> u8
    ensures file { result ≢ 5 }
    ensures output { result ≢ 6 }
{
    ivy(alloc, words, shelf, sink)
}

fn words(alloc: Global) -> Result<Vec<String>, AllocError> {
    let mut words = Vec::new(alloc);
    for word in ["run", "--every", "a.ng", "e.json"] {
        words.push(String::from_str(alloc, word)?)?;
    }
    Ok(words)
}

fn file(alloc: Global, name: &str, text: &str) -> Result<(String, Vec<u8>), AllocError> {
    let bytes = Vec::from_slice(alloc, text.as_bytes())?;
    Ok((String::from_str(alloc, name)?, bytes))
}

fn files(alloc: Global) -> Result<Vec<(String, Vec<u8>)>, AllocError> {
    let mut files = Vec::new(alloc);
    files.push(file(alloc, "a.ng", COUNTER)?)?;
    files.push(file(alloc, "e.json", CLICKS)?)?;
    Ok(files)
}

#[test]
fn prints_the_pages(rt: HostRuntime) -> Result<(), Fail> {
    let alloc = rt.alloc();
    let words = words(alloc)?;
    let mut shelf = SureShelf::new(files(alloc)?);
    let mut sink = SureSink::new(alloc);
    assert_eq!(rt; surely(alloc, &words, &mut shelf, &mut sink), 0);
    assert!(rt; sink.bytes() == PAGES.as_bytes());
    Ok(())
}

#[test]
fn a_sink_that_fails_keeps_what_it_took(rt: HostRuntime) -> Result<(), Fail> {
    let alloc = rt.alloc();
    let words = words(alloc)?;
    let mut shelf = MemShelf::new(files(alloc)?, Vec::new(alloc));
    let mut fails = Vec::new(alloc);
    fails.push(3)?;
    let mut sink = MemSink::new(alloc, 1000, fails)?;
    assert_eq!(rt; ivy(alloc, &words, &mut shelf, &mut sink), 6);
    assert!(rt; PAGES.as_bytes().starts_with(sink.bytes()));
    assert_eq!(rt; sink.bytes().len(), 134);
    Ok(())
}

#[test]
fn a_shelf_without_the_events(rt: HostRuntime) -> Result<(), Fail> {
    let alloc = rt.alloc();
    let words = words(alloc)?;
    let mut held = Vec::new(alloc);
    held.push(file(alloc, "a.ng", COUNTER)?)?;
    let mut shelf = MemShelf::new(held, Vec::new(alloc));
    let mut sink = MemSink::new(alloc, 1000, Vec::new(alloc))?;
    assert_eq!(rt; ivy(alloc, &words, &mut shelf, &mut sink), 5);
    assert_eq!(rt; sink.bytes().len(), 0);
    Ok(())
}
