//! The search for the components that an element matches.

ghost use Rattle.std.specs.Prelude.{◌≡◌, ◌||◌, ℕ, map, true, OnOk, IfOk, IfSome};
ghost use Rattle.std.specs.BTreeSet.{contains, IsOrdered};
ghost use Rattle.std.specs.List.{list_any, slice_split};
ghost use Rattle.std.specs.Ordering.{nat_cmp};
ghost use Rattle.ng_tokens.specs.Lexis as text;
ghost use Rattle.ng_hosts.specs.Index as spec;
ghost use Rattle.ng_hosts.specs.Index.{IsIndex};

use crate::index::{Entry, SelectorIndex, by_attribute, by_class, by_tag, unmarked};
use crate::words::Word;
use ng_ast::Component;
use ng_selectors::{Attr, one_fits};
use ng_values::NgText;
use std::alloc::{AllocError, Global};
use std::collections::BTreeSet;

fn entry_fits(components: &[&Component], entry: Entry, tag: &NgText, seen: &[Attr]) -> bool
    ensures { result ≡ spec.entry_fits (map (λ c. c.now) components.now) tag.now seen.now entry }
{
    match components.get(entry.component) {
        None => false,
        Some(component) => match component.selector.list.as_slice().get(entry.alternative) {
            None => false,
            Some(one) => one_fits(one, tag.as_str(), seen),
        },
    }
}

/// Adds the position of the alternative's component, if the element matches the alternative, and answers the position that was added
/// last. `last` is that of the alternatives before; its component isn't tried again.
fn try_entry(
    components: &[&Component],
    entry: Entry,
    tag: &NgText,
    seen: &[Attr],
    last: Option<usize>,
    found: &mut BTreeSet<usize>,
) -> Result<Option<usize>, AllocError>
    requires { IfSome last (λ at. contains nat_cmp found.now at ≡ true) }
    ensures last { IfOk result (λ last. IfSome last (λ at. contains nat_cmp found.new at ≡ true)) }
    ensures found { IfOk result (λ last. (at : ℕ) → contains nat_cmp found.new at ≡ (contains nat_cmp found.old at || spec.hits (map (λ c. c.now) components.now) tag.now seen.now at entry)) }
{
    if let Some(at) = last {
        if at == entry.component {
            return Ok(last);
        }
    }
    if entry_fits(components, entry, tag, seen) {
        found.insert(entry.component)?;
        return Ok(Some(entry.component));
    }
    Ok(last)
}

fn try_entries(
    components: &[&Component],
    entries: &[Entry],
    tag: &NgText,
    seen: &[Attr],
    found: &mut BTreeSet<usize>,
) -> Result<(), AllocError>
    ensures { OnOk result ((at : ℕ) → contains nat_cmp found.new at ≡ (contains nat_cmp found.old at || list_any (spec.hits (map (λ c. c.now) components.now) tag.now seen.now at) entries.now)) }
{
    let mut last = None;
    for entry in entries {
        last = try_entry(components, *entry, tag, seen, last, found)?;
    }
    Ok(())
}

fn is_blank(byte: u8) -> bool
    ensures { result ≡ text.is_blank byte }
{
    byte.is_ascii_whitespace()
}

/// What stands between each two white space characters.
fn pieces_of(alloc: Global, value: &NgText) -> Result<Vec<&[u8]>, AllocError>
    ensures { IfOk result (λ pieces. map (λ p. p.now) pieces.items ≡ slice_split text.is_blank value.now) }
{
    value
        .as_str()
        .as_bytes()
        .split(|byte| is_blank(*byte))
        .collect(alloc)
}

/// Tries the alternatives that stand by a word.
fn try_word(
    alloc: Global,
    components: &[&Component],
    index: &SelectorIndex,
    word: &[u8],
    tag: &NgText,
    seen: &[Attr],
    found: &mut BTreeSet<usize>,
) -> Result<(), AllocError>
    ensures { OnOk result ((at : ℕ) → contains nat_cmp found.new at ≡ (contains nat_cmp found.old at || spec.class_hits (map (λ c. c.now) components.now) tag.now seen.now index.now at word.now)) }
{
    let word = Word::new(alloc, word)?;
    try_entries(components, by_class(index, &word), tag, seen, found)
}

/// Tries those that stand by the words of a value.
fn try_words(
    alloc: Global,
    components: &[&Component],
    index: &SelectorIndex,
    value: &NgText,
    tag: &NgText,
    seen: &[Attr],
    found: &mut BTreeSet<usize>,
) -> Result<(), AllocError>
    ensures { OnOk result ((at : ℕ) → contains nat_cmp found.new at ≡ (contains nat_cmp found.old at || list_any (spec.class_hits (map (λ c. c.now) components.now) tag.now seen.now index.now at) (slice_split text.is_blank value.now))) }
{
    let pieces = pieces_of(alloc, value)?;
    for piece in pieces.as_slice() {
        try_word(alloc, components, index, *piece, tag, seen, found)?;
    }
    Ok(())
}

/// Tries those that stand by an attribute, and by its words if it is `class`.
fn try_attr(
    alloc: Global,
    components: &[&Component],
    index: &SelectorIndex,
    attr: &Attr,
    tag: &NgText,
    seen: &[Attr],
    found: &mut BTreeSet<usize>,
) -> Result<(), AllocError>
    ensures { OnOk result ((at : ℕ) → contains nat_cmp found.new at ≡ (contains nat_cmp found.old at || spec.attr_hits (map (λ c. c.now) components.now) tag.now seen.now index.now at attr.now)) }
{
    try_entries(
        components,
        by_attribute(index, &attr.name),
        tag,
        seen,
        found,
    )?;
    if "class" == attr.name.as_str() {
        try_words(alloc, components, index, &attr.value, tag, seen, found)?;
        return Ok(());
    }
    Ok(())
}

fn try_attrs(
    alloc: Global,
    components: &[&Component],
    index: &SelectorIndex,
    tag: &NgText,
    seen: &[Attr],
    found: &mut BTreeSet<usize>,
) -> Result<(), AllocError>
    ensures { OnOk result ((at : ℕ) → contains nat_cmp found.new at ≡ (contains nat_cmp found.old at || list_any (spec.attr_hits (map (λ c. c.now) components.now) tag.now seen.now index.now at) seen.now)) }
{
    for attr in seen {
        try_attr(alloc, components, index, attr, tag, seen, found)?;
    }
    Ok(())
}

/// The positions of a set, rising.
pub(crate) fn rising(alloc: Global, found: &BTreeSet<usize>) -> Result<Vec<usize>, AllocError>
    ensures items { IfOk result (λ positions. positions.items ≡ found.now.keys) }
    ensures ordered { IsOrdered nat_cmp found.now }
{
    found.iter().copied().collect(alloc)
}

/// The positions of the components that an element with this tag and these attributes matches. The only error is want of memory.
pub(crate) fn search(
    alloc: Global,
    components: &[&Component],
    index: &SelectorIndex,
    tag: &NgText,
    seen: &[Attr],
) -> Result<BTreeSet<usize>, AllocError>
    requires { IsIndex index.now (map (λ c. c.now) components.now) }
    ensures { IfOk result (λ found. (at : ℕ) → contains nat_cmp found at ≡ spec.fits_at (map (λ c. c.now) components.now) tag.now seen.now at) }
{
    let mut found = BTreeSet::new(alloc);
    try_entries(components, unmarked(index), tag, seen, &mut found)?;
    try_entries(components, by_tag(index, tag), tag, seen, &mut found)?;
    try_attrs(alloc, components, index, tag, seen, &mut found)?;
    Ok(found)
}
