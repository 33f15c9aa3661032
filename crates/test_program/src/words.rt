//! What the words of a call ask for.

use ng_words::{Flags, Order, Refused, read_words};
use std::alloc::Global;
use std::test::Fail;

const EVERY_AND_TRACE: Flags = Flags {
    every: true,
    ops: false,
    report: false,
    trace: true,
};

fn words(alloc: Global, text: &str) -> Result<Vec<String>, Fail> {
    let mut words = Vec::new(alloc);
    for word in text.split(' ') {
        words.push(String::from_str(alloc, word)?)?;
    }
    Ok(words)
}

#[test]
fn orders(rt: HostRuntime) -> Result<(), Fail> {
    let alloc = rt.alloc();
    let run = Order::Run(EVERY_AND_TRACE, "a.ng", "b.json");
    for (text, want) in [
        ("run --every a.ng --trace b.json", Ok(run)),
        ("check -- --every", Ok(Order::Check("--every"))),
        ("compile a.ng", Ok(Order::Compile("a.ng"))),
        ("run --every=x a b", Err(Refused::Words)),
        ("run a b c", Err(Refused::Words)),
        ("walk a", Err(Refused::Words)),
        ("help", Err(Refused::Words)),
        ("run --never a b", Err(Refused::Words)),
    ] {
        let words = words(alloc, text)?;
        assert!(rt; read_words(alloc, &words) == want, "{text}");
    }
    Ok(())
}
