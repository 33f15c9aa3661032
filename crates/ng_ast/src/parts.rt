ghost use Rattle.std.specs.Prelude.{◌≡◌, ◌++◌, [], ◌∷◌, IfOk, OnOk, Ok};

use crate::Place;
use ng_values::NgText;
use sqlite_items::Items;
use std::alloc::{AllocError, Global};

/// A part of the tree that stands in lists and doesn't lead back to itself.
pub(crate) trait Part: Drop {
    /// An equal part, whose own lists and boxes are made anew.
    fn copy_part(&self, alloc: Global) -> Result<Self, AllocError>
        ensures { IfOk result (λ copy. copy ≡ self.now) };
}

/// An equal list.
pub(crate) fn copy_parts<T: Part>(alloc: Global, parts: &Items<T>) -> Result<Items<T>, AllocError>
    ensures { IfOk result (λ copy. copy ≡ parts.now) }
{
    let mut copies = Vec::with_capacity(alloc, parts.len())?;
    for part in parts.as_slice() {
        copies.push(part.copy_part(alloc)?)?;
    }
    Ok(Items::from_vec(copies))
}

/// One more at the end.
pub(crate) fn push<T: Drop>(copies: &mut Vec<T>, copy: T) -> Result<(), AllocError>
    ensures { OnOk result (copies.new.items ≡ copies.old.items ++ copy ∷ []) }
{
    Ok(copies.push(copy)?)
}

/// Both, where memory sufficed for each. So a copy of two parts has one way out where memory is wanting, and nothing to drop there.
pub(crate) fn both<A: Drop, B: Drop>(
    first: Result<A, AllocError>,
    second: Result<B, AllocError>,
) -> Result<(A, B), AllocError>
    ensures { IfOk result (λ made. (first ≡ Ok made.0) × (second ≡ Ok made.1)) }
{
    Ok((first?, second?))
}

/// An equal text, where there is one.
pub(crate) fn copy_name(name: &Option<NgText>) -> Result<Option<NgText>, AllocError>
    ensures { IfOk result (λ copy. copy ≡ name.now) }
{
    match name {
        None => Ok(None),
        Some(name) => Ok(Some(name.copy()?)),
    }
}

impl Part for NgText {
    fn copy_part(&self, _alloc: Global) -> Result<NgText, AllocError> {
        self.copy()
    }
}

impl Part for (NgText, NgText) {
    fn copy_part(&self, _alloc: Global) -> Result<(NgText, NgText), AllocError> {
        both(self.0.copy(), self.1.copy())
    }
}
