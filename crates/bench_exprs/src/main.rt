//! Times `read_body`. With a number N as its argument it reads texts of N KiB, and prints a line for each, with milliseconds; with
//! none it says how small texts are read.
#![tactic(auto)]

use ng_ast::{Place, ReadError};
use ng_exprs::read_body;
use std::alloc::{AllocError, Global};
use std::rt::Runtime;
use std::time::Instant;
use std::{env, io};

const BASE: Place = Place {
    line: 1,
    column: 1,
    byte: 0,
};

/// The largest text that is read, in KiB.
const MOST: usize = 1024;

/// A name, what a text is made of, and what stands behind it.
const TEXTS: [(&str, &str); 5] = [
    ("sums", "x = x + 1;\n"),
    ("calls", "f(a, [b, 'c'], {d: 1}); g.h($event);\n"),
    (
        "blocks",
        "if (a) { b = c ? d : e; } else { f?.g(h | i); } // j\n",
    ),
    ("names", "x "),
    ("no tokens", "@"),
];

/// How a body is read.
fn answer(alloc: Global, text: &str) -> &'static str {
    if text.len() > 1048576 {
        return "too long";
    }
    match read_body(alloc, text, BASE) {
        Ok(_) => "read",
        Err(ReadError::Syntax(_)) => "syntax",
        Err(ReadError::Limit(_)) => "limit",
        Err(ReadError::Utf8) => "no UTF-8",
        Err(ReadError::Memory) => "no memory",
    }
}

/// The unit, as often as it has room in so many KiB.
fn repeated(alloc: Global, unit: &str, size: usize) -> Result<String, AllocError> {
    let times = (size.min(MOST) * 1024).checked_div(unit.len()).unwrap_or(0);
    let mut text = String::new(alloc);
    for _ in 0..times {
        text.push_str(unit)?;
    }
    Ok(text)
}

fn time(rt: &impl Runtime, alloc: Global, size: usize) -> io::Result<()> {
    for (name, unit) in TEXTS {
        let text = repeated(alloc, unit, size)?;
        let start = Instant::now(rt)?;
        let found = answer(alloc, text.as_str());
        let spent = start.elapsed(rt)?;
        println!(rt; "{name} of {size} KiB: {found} in {} ms", spent.as_millis())?;
    }
    Ok(())
}

fn check(rt: &impl Runtime, alloc: Global) -> io::Result<()> {
    for (name, unit) in TEXTS {
        println!(rt; "{name}: {}", answer(alloc, unit))?;
    }
    Ok(())
}

fn main(rt: HostRuntime) -> io::Result<()> {
    let alloc = rt.alloc();
    match env::args(&rt)?.nth(1) {
        Some(size) => match size.parse::<usize>() {
            Ok(size) => time(&rt, alloc, size),
            Err(_) => println!(rt; "the argument is no number"),
        },
        None => check(&rt, alloc),
    }
}
