//! What every element bears that an alternative of a selector means.

ghost use Rattle.std.specs.Prelude.{◌≡◌, bytes_eq, unwrap_or, IfOk};
ghost use Rattle.std.specs.HashMap.{get};
ghost use Rattle.ng_hosts.specs.Index as spec;

use ng_ast::{Component, One, SelPart};
use ng_values::NgText;
use std::alloc::{AllocError, Global};
use std::collections::HashMap;

/// A mark that every element bears that an alternative means: an attribute of a name, a word of its classes, or its tag. Of `:not` alone
/// no mark comes.
#[derive(Drop)]
pub enum Mark {
    Attribute(NgText),
    Class(NgText),
    Tag(NgText),
    Nothing,
}

fn part_mark(part: &SelPart) -> Result<Option<Mark>, AllocError>
    ensures { IfOk result (λ mark. mark ≡ spec.part_mark part.now) }
{
    match part {
        SelPart::Has(name) => Ok(Some(Mark::Attribute(name.copy()?))),
        SelPart::Is(name, _) => Ok(Some(Mark::Attribute(name.copy()?))),
        SelPart::Class(class) => Ok(Some(Mark::Class(class.copy()?))),
        SelPart::Not(_) => Ok(None),
    }
}

fn tag_mark(tag: &Option<NgText>) -> Result<Mark, AllocError>
    ensures { IfOk result (λ mark. mark ≡ spec.tag_mark tag.now) }
{
    match tag {
        Some(tag) => Ok(Mark::Tag(tag.copy()?)),
        None => Ok(Mark::Nothing),
    }
}

/// How many alternatives bear a mark, by the kind of the mark. What elements match doesn't depend on it.
#[derive(Drop)]
pub struct MarkCounts {
    attributes: HashMap<NgText, usize>,
    classes: HashMap<NgText, usize>,
    tags: HashMap<NgText, usize>,
}

fn count_name(name: NgText, counts: &mut HashMap<NgText, usize>) -> Result<(), AllocError> {
    let count = counts.get(&name).copied().unwrap_or(0);
    counts.insert(name, count.saturating_add(1))?;
    Ok(())
}

fn count_mark(mark: Mark, counts: &mut MarkCounts) -> Result<(), AllocError> {
    match mark {
        Mark::Attribute(name) => count_name(name, &mut counts.attributes),
        Mark::Class(name) => count_name(name, &mut counts.classes),
        Mark::Tag(name) => count_name(name, &mut counts.tags),
        Mark::Nothing => Ok(()),
    }
}

fn count_part(part: &SelPart, counts: &mut MarkCounts) -> Result<(), AllocError> {
    match part_mark(part)? {
        Some(mark) => count_mark(mark, counts),
        None => Ok(()),
    }
}

fn count_one(one: &One, counts: &mut MarkCounts) -> Result<(), AllocError> {
    count_mark(tag_mark(&one.tag)?, counts)?;
    for part in one.parts.as_slice() {
        count_part(part, counts)?;
    }
    Ok(())
}

/// Counts the marks of all alternatives. The only error is want of memory.
pub(crate) fn mark_counts(
    alloc: Global,
    components: &[&Component],
) -> Result<MarkCounts, AllocError> {
    let mut counts = MarkCounts {
        attributes: HashMap::new(alloc),
        classes: HashMap::new(alloc),
        tags: HashMap::new(alloc),
    };
    for component in components {
        for one in component.selector.list.as_slice() {
            count_one(one, &mut counts)?;
        }
    }
    Ok(counts)
}

fn name_count(name: &NgText, counts: &HashMap<NgText, usize>) -> usize
    ensures { result ≡ unwrap_or (get bytes_eq counts.now name.now) 0 }
{
    counts.get(name).copied().unwrap_or(0)
}

fn count(mark: &Mark, counts: &MarkCounts) -> usize
    ensures { result ≡ spec.count counts.now mark.now }
{
    match mark {
        Mark::Attribute(name) => name_count(name, &counts.attributes),
        Mark::Class(name) => name_count(name, &counts.classes),
        Mark::Tag(name) => name_count(name, &counts.tags),
        Mark::Nothing => usize::MAX,
    }
}

fn rarer(best: Mark, mark: Mark, counts: &MarkCounts) -> Mark
    ensures { result ≡ spec.rarer counts.now best mark }
{
    if count(&mark, counts) < count(&best, counts) {
        mark
    } else {
        best
    }
}

fn rarer_if(best: Mark, mark: Option<Mark>, counts: &MarkCounts) -> Mark
    ensures { result ≡ spec.rarer_if counts.now best mark }
{
    match mark {
        Some(mark) => rarer(best, mark, counts),
        None => best,
    }
}

/// The mark of an alternative: of its tag and the marks of its parts the one that the fewest alternatives bear. The only error is want of
/// memory.
pub(crate) fn mark_of(one: &One, counts: &MarkCounts) -> Result<Mark, AllocError>
    ensures { IfOk result (λ mark. mark ≡ spec.mark_of counts.now one.now) }
{
    let mut best = tag_mark(&one.tag)?;
    for part in one.parts.as_slice() {
        best = rarer_if(best, part_mark(part)?, counts);
    }
    Ok(best)
}
