//! Where the alternatives of selectors stand.

ghost use Rattle.std.specs.Prelude.{◌≡◌, ◌++◌, map, bytes_eq, OnOk, IfOk};
ghost use Rattle.std.specs.HashMap.{get};
ghost use Rattle.ng_hosts.specs.Hosts.{Name};
ghost use Rattle.ng_hosts.specs.Index as spec;
ghost use Rattle.ng_hosts.specs.Index.{row, entry_if, marked, Adds};

use crate::marks::{Mark, MarkCounts, mark_counts, mark_of};
use crate::words::Word;
use ng_ast::{Component, One};
use ng_values::NgText;
use sqlite_items::Items;
use std::alloc::{AllocError, Global};
use std::collections::HashMap;

/// An alternative of a component's selector: the position of the component and its own among the alternatives.
#[derive(Clone, Copy)]
pub struct Entry {
    pub component: usize,
    pub alternative: usize,
}

/// Where the alternatives of the selectors of a list of components stand, by a mark that every element bears that they mean.
#[derive(Drop)]
pub struct SelectorIndex {
    attributes: HashMap<NgText, Items<Entry>>,
    classes: HashMap<Word, Items<Entry>>,
    tags: HashMap<NgText, Items<Entry>>,
    /// Those that any element may match, as `:not(p)`.
    unmarked: Vec<Entry>,
}

fn empty_index(alloc: Global) -> SelectorIndex
    ensures { spec.IsEmpty result }
{
    SelectorIndex {
        attributes: HashMap::new(alloc),
        classes: HashMap::new(alloc),
        tags: HashMap::new(alloc),
        unmarked: Vec::new(alloc),
    }
}

fn push_name(
    alloc: Global,
    name: NgText,
    entry: Entry,
    rows: &mut HashMap<NgText, Items<Entry>>,
) -> Result<(), AllocError>
    ensures { OnOk result ((q : Name) → row (get bytes_eq rows.new q) ≡ row (get bytes_eq rows.old q) ++ entry_if (bytes_eq name q) entry) }
{
    let mut entries = match rows.remove(&name) {
        Some(entries) => entries,
        None => Items::new(alloc),
    };
    entries.push(entry)?;
    rows.insert(name, entries)?;
    Ok(())
}

fn push_word(
    alloc: Global,
    word: Word,
    entry: Entry,
    rows: &mut HashMap<Word, Items<Entry>>,
) -> Result<(), AllocError>
    ensures { OnOk result ((q : Name) → row (get bytes_eq rows.new q) ≡ row (get bytes_eq rows.old q) ++ entry_if (bytes_eq word q) entry) }
{
    let mut entries = match rows.remove(&word) {
        Some(entries) => entries,
        None => Items::new(alloc),
    };
    entries.push(entry)?;
    rows.insert(word, entries)?;
    Ok(())
}

/// Adds an alternative by its mark.
fn push_alternative(
    alloc: Global,
    one: &One,
    entry: Entry,
    counts: &MarkCounts,
    index: &mut SelectorIndex,
) -> Result<(), AllocError>
    ensures { OnOk result (Adds index.old index.new (λ wanted. entry_if (wanted (spec.mark_of counts.now one.now)) entry)) }
{
    match mark_of(one, counts)? {
        Mark::Attribute(name) => push_name(alloc, name, entry, &mut index.attributes),
        Mark::Class(class) => {
            let word = Word::new(alloc, class.as_str().as_bytes())?;
            push_word(alloc, word, entry, &mut index.classes)
        }
        Mark::Tag(tag) => push_name(alloc, tag, entry, &mut index.tags),
        Mark::Nothing => {
            index.unmarked.push(entry)?;
            Ok(())
        }
    }
}

/// Adds the alternatives of the component at a position.
fn push_alternatives(
    alloc: Global,
    ones: &[One],
    component: usize,
    counts: &MarkCounts,
    index: &mut SelectorIndex,
) -> Result<(), AllocError>
    ensures { OnOk result (Adds index.old index.new (λ wanted. marked counts.now wanted component 0 ones.now)) }
{
    for (alternative, one) in ones.iter().enumerate() {
        let entry = Entry {
            component,
            alternative,
        };
        push_alternative(alloc, one, entry, counts, index)?;
    }
    Ok(())
}

/// Where the alternatives of the selectors of the components stand, each by the rarest of its marks. The only error is want of memory.
///
/// The time is linear in the parts of the alternatives and the bytes of their names.
pub fn selector_index(alloc: Global, components: &[&Component]) -> Result<SelectorIndex, AllocError>
    ensures { IfOk result (λ index. spec.IsIndex index (map (λ c. c.now) components.now)) }
{
    let counts = mark_counts(alloc, components)?;
    let mut index = empty_index(alloc);
    for (at, component) in components.iter().enumerate() {
        push_alternatives(
            alloc,
            component.selector.list.as_slice(),
            at,
            &counts,
            &mut index,
        )?;
    }
    Ok(index)
}

/// The alternatives that stand by an attribute of the name.
pub(crate) fn by_attribute<'a>(index: &'a SelectorIndex, name: &NgText) -> &'a [Entry]
    ensures { result.now ≡ row (get bytes_eq index.now.attributes name.now) }
{
    match index.attributes.get(name) {
        Some(entries) => entries.as_slice(),
        None => &[],
    }
}

/// The alternatives that stand by a word of `class`.
pub(crate) fn by_class<'a>(index: &'a SelectorIndex, word: &Word) -> &'a [Entry]
    ensures { result.now ≡ row (get bytes_eq index.now.classes word.now) }
{
    match index.classes.get(word) {
        Some(entries) => entries.as_slice(),
        None => &[],
    }
}

/// The alternatives that stand by the tag.
pub(crate) fn by_tag<'a>(index: &'a SelectorIndex, tag: &NgText) -> &'a [Entry]
    ensures { result.now ≡ row (get bytes_eq index.now.tags tag.now) }
{
    match index.tags.get(tag) {
        Some(entries) => entries.as_slice(),
        None => &[],
    }
}

/// The alternatives without a mark.
pub(crate) fn unmarked(index: &SelectorIndex) -> &[Entry]
    ensures { result.now ≡ index.now.unmarked.items }
{
    index.unmarked.as_slice()
}
