//! What a name means where it stands.

ghost use Rattle.std.specs.Prelude.{◌≡◌, ◌+◌, bytes_eq, IfOk, OnOk};
ghost use Rattle.std.specs.HashMap.{get};
ghost use Rattle.ng_scopes.specs.Names.{Name, IsTable, seen, is_let, let_count, only, first_some};
ghost use Rattle.ng_scopes.specs.Scope.{meaning_of, names_at};

use crate::names::{Known, Meaning};
use ng_values::NgText;
use std::alloc::{AllocError, Global};
use std::collections::HashMap;

/// What a name means in a view, and how many `@let`s of the view stand before that `@let` or name.
#[derive(Clone, Copy)]
pub struct Entry {
    pub meaning: Meaning,
    pub before: usize,
}

/// The names of the views round a place, the innermost first, each with the number of its `@let`s that stand before the place.
#[derive(Clone, Copy)]
pub(crate) enum Scope<'a> {
    Outside,
    View(&'a HashMap<NgText, Entry>, usize, &'a Scope<'a>),
}

fn counted(meaning: Meaning) -> bool
    ensures { result ≡ is_let meaning }
{
    match meaning {
        Meaning::Let => true,
        Meaning::Parameter => false,
        Meaning::Variable => false,
        Meaning::Ahead => false,
        Meaning::Reference => false,
        Meaning::Template => false,
        Meaning::Member(_, _) => false,
    }
}

/// One more of what stands in memory; more than 2^64 don't, so that is answered as want of memory.
pub(crate) fn one_more(count: usize) -> Result<usize, AllocError>
    ensures { IfOk result (λ next. next ≡ count + 1) }
{
    match count.checked_add(1) {
        Some(next) => Ok(next),
        None => Err(AllocError),
    }
}

fn more_lets(meaning: Meaning, before: usize) -> Result<usize, AllocError>
    ensures { IfOk result (λ next. next ≡ before + let_count meaning) }
{
    if counted(meaning) {
        return Ok(one_more(before)?);
    }
    Ok(before)
}

fn add(known: &Known, before: usize, table: &mut HashMap<NgText, Entry>) -> Result<(), AllocError>
    ensures { OnOk result ((q : Name) → get bytes_eq table.new q ≡ first_some (get bytes_eq table.old q) (only known.now before q)) }
{
    if table.contains_key(&known.name) {
        return Ok(());
    }
    let name = known.name.copy()?;
    let meaning = known.meaning;
    table.insert(name, Entry { meaning, before })?;
    Ok(())
}

/// Where each name stands first in a list of names.
pub fn table_of(alloc: Global, names: &[Known]) -> Result<HashMap<NgText, Entry>, AllocError>
    ensures { IfOk result (λ table. IsTable table names.now) }
{
    let mut table = HashMap::new(alloc);
    let mut before = 0;
    for known in names {
        add(known, before, &mut table)?;
        before = more_lets(known.meaning, before)?;
    }
    Ok(table)
}

fn seen_from(entry: Entry, passed: usize) -> Meaning
    ensures { result ≡ seen passed entry }
{
    if counted(entry.meaning) && passed <= entry.before {
        return Meaning::Ahead;
    }
    entry.meaning
}

/// A view: where its names stand, and the scope round it.
#[derive(Clone, Copy)]
pub(crate) struct View<'a> {
    pub table: &'a HashMap<NgText, Entry>,
    pub outer: &'a Scope<'a>,
}

impl<'a> View<'a> {
    /// The scope inside the view, where so many of its `@let`s have passed.
    #[tactic(auto, using(crate::proofs::ScopeLaws::whole_laws))]
    pub(crate) fn scope(self, passed: usize) -> Scope<'a>
        ensures { meaning_of result ≡ names_at self.entry passed }
    {
        Scope::View(self.table, passed, self.outer)
    }
}

impl Scope<'_> {
    /// What the name means here.
    #[tactic(auto, using(crate::proofs::ScopeLaws::scope_laws))]
    pub(crate) fn find(&self, name: &NgText) -> Option<Meaning>
        ensures { result ≡ meaning_of self.now name.now }
    {
        match self {
            Scope::Outside => None,
            Scope::View(table, passed, outer) => match table.get(name) {
                Some(entry) => Some(seen_from(*entry, *passed)),
                None => outer.find(name),
            },
        }
    }
}
