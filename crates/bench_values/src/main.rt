//! Times calls of values and paths. With a number N from 1 to 10 as its argument it does N tenths of what each row of the table says,
//! and prints a line for each row, with microseconds; with none it says what small ones of each give.
#![tactic(auto)]

use ng_tree::{Path, Step, compare};
use ng_values::{NgText, Stop, Value, invoke, list, rec};
use std::alloc::{AllocError, Global};
use std::cmp::Ordering;
use std::collections::HashMap;
use std::rt::Runtime;
use std::time::Instant;
use std::{env, io};

/// What is timed.
#[derive(Clone, Copy)]
enum Row {
    /// Copies of a list of 10,000 items.
    Copies,
    /// `concat` of two lists.
    Concat,
    /// A record of keys in shuffled order.
    Rec,
    /// The JSON form of a text.
    Json,
    /// Paths of 63 steps as keys of a map.
    Keys,
    /// Comparisons of two paths of 63 steps that differ in the last one.
    Compare,
}

/// Each row, with its name, a tenth of its whole, and a small one of its kind.
const ROWS: [(Row, &str, u32, u32); 6] = [
    (Row::Copies, "copies of a list of 10,000 items", 100000, 3),
    (Row::Concat, "items of each of two lists, concat", 3000, 2),
    (Row::Rec, "keys of a record, shuffled", 1000, 10),
    (Row::Json, "bytes of a text, JSON form", 104858, 5),
    (Row::Keys, "paths of 63 steps found in a map", 10000, 2),
    (Row::Compare, "comparisons of paths of 63 steps", 10000, 4),
];

/// The numbers below `count`, as values.
fn numbers(alloc: Global, count: u32) -> Result<Vec<Value>, AllocError> {
    let mut items = Vec::new(alloc);
    for number in 0..count {
        items.push(Value::Int(i64::from(number)))?;
    }
    Ok(items)
}

/// What the copies weigh in all.
fn copies(alloc: Global, count: u32) -> Result<u64, Stop> {
    let one = list(alloc, numbers(alloc, 10000)?)?;
    let mut weight = 0u64;
    for _ in 0..count {
        let copy = one.copy()?;
        weight = weight.wrapping_add(copy.weight());
    }
    Ok(weight)
}

/// What the list of both weighs.
fn concat(alloc: Global, count: u32) -> Result<u64, Stop> {
    let items = list(alloc, numbers(alloc, count)?)?;
    let more = [items.copy()?];
    Ok(invoke(alloc, &items, "concat", &more)?.weight())
}

/// Pairs whose keys are the numbers below `count`, in steps of 7,919.
fn pairs(alloc: Global, count: u32) -> Result<Vec<(NgText, Value)>, AllocError> {
    let mut pairs = Vec::new(alloc);
    for at in 0..count {
        let key = at.wrapping_mul(7919).checked_rem(count).unwrap_or(0);
        let key = NgText::from_string(alloc, key.to_string(alloc)?)?;
        pairs.push((key, Value::Null))?;
    }
    Ok(pairs)
}

/// What the record weighs.
fn record(alloc: Global, count: u32) -> Result<u64, Stop> {
    Ok(rec(alloc, pairs(alloc, count)?)?.weight())
}

/// The bytes of the JSON form of a text of quotes.
fn json(alloc: Global, count: u32) -> Result<u64, Stop> {
    let mut text = String::new(alloc);
    for _ in 0..count {
        text.push('"')?;
    }
    let text = Value::Text(NgText::from_string(alloc, text)?);
    Ok(text.json_of(alloc)?.len() as u64)
}

/// A path of 62 steps through components, and a row with a text as its key.
fn path(alloc: Global, last: u32) -> Result<Path, AllocError> {
    let mut steps = Vec::new(alloc);
    for at in 0..62u32 {
        steps.push(Step::Child(at))?;
    }
    steps.push(Step::Row(7, Value::Text(NgText::new(alloc, "key")?), last))?;
    Path::shared(alloc, steps)
}

/// A map with 16 paths as keys.
fn places(alloc: Global) -> Result<HashMap<Path, u32>, AllocError> {
    let mut places = HashMap::new(alloc);
    for at in 0..16 {
        places.insert(path(alloc, at)?, at)?;
    }
    Ok(places)
}

/// How often a path is found that was put into a map.
fn keys(alloc: Global, count: u32) -> Result<u64, Stop> {
    let places = places(alloc)?;
    let one = path(alloc, 15)?;
    let mut found = 0u64;
    for _ in 0..count {
        if places.contains_key(&one) {
            found = found.wrapping_add(1);
        }
    }
    Ok(found)
}

/// How often the lesser of two paths is found to be less.
fn comparisons(alloc: Global, count: u32) -> Result<u64, Stop> {
    let less = path(alloc, 0)?;
    let greater = path(alloc, 1)?;
    let mut found = 0u64;
    for _ in 0..count {
        if compare(&less, &greater) == Ordering::Less {
            found = found.wrapping_add(1);
        }
    }
    Ok(found)
}

fn made(alloc: Global, row: Row, count: u32) -> Result<u64, Stop> {
    match row {
        Row::Copies => copies(alloc, count),
        Row::Concat => concat(alloc, count),
        Row::Rec => record(alloc, count),
        Row::Json => json(alloc, count),
        Row::Keys => keys(alloc, count),
        Row::Compare => comparisons(alloc, count),
    }
}

fn time(rt: &impl Runtime, alloc: Global, tenths: u32) -> io::Result<()> {
    for (row, name, tenth, _) in ROWS {
        let count = tenths.min(10) * tenth.min(1000000);
        let start = Instant::now(rt)?;
        let made = made(alloc, row, count);
        let spent = start.elapsed(rt)?;
        match made {
            Ok(_) => println!(rt; "{name}: {count} in {} us", spent.as_micros())?,
            Err(_) => println!(rt; "{name}: not made")?,
        }
    }
    Ok(())
}

fn check(rt: &impl Runtime, alloc: Global) -> io::Result<()> {
    for (row, name, _, small) in ROWS {
        match made(alloc, row, small) {
            Ok(made) => println!(rt; "{name}: {small} give {made}")?,
            Err(_) => println!(rt; "{name}: not made")?,
        }
    }
    Ok(())
}

fn main(rt: HostRuntime) -> io::Result<()> {
    let alloc = rt.alloc();
    match env::args(&rt)?.nth(1) {
        Some(tenths) => match tenths.parse::<u32>() {
            Ok(tenths) => time(&rt, alloc, tenths),
            Err(_) => println!(rt; "the argument is no number"),
        },
        None => check(&rt, alloc),
    }
}
