//! Which slot content goes to.

ghost use Rattle.std.specs.Prelude.{◌≡◌};
ghost use Rattle.ng_selectors.specs.Slots.{is_default, default_slot, fitting_slot, slot};

use crate::Attr;
use crate::fits::matches;
use ng_ast::Selector;

// Whether the selector is that of the default slot: `*` alone.
fn is_default(selector: &Selector) -> bool
    ensures { result ≡ is_default selector.now }
{
    match selector.list.as_slice() {
        [only] => only.tag.is_none() && only.parts.is_empty(),
        _ => false,
    }
}

/// The place of the default slot, which takes what no other slot does: the first whose selector is `*` alone.
pub fn default_slot(slots: &[Selector]) -> Option<usize>
    ensures { result ≡ default_slot slots.now }
{
    slots.iter().position(is_default)
}

// The first slot but the default whose selector matches.
fn fitting_slot(slots: &[Selector], tag: &str, attrs: &[Attr]) -> Option<usize>
    ensures { result ≡ fitting_slot slots.now tag.now attrs.now }
{
    slots
        .iter()
        .position(|slot| !is_default(slot) && matches(slot, tag, attrs))
}

/// The place of the slot that an element goes to: the first but the default whose selector matches it, and otherwise the default.
/// None where no slot matches and there is no default. The slots are those of Angular's content projection
/// (<https://angular.dev/guide/components/content-projection>).
pub fn slot_of(slots: &[Selector], tag: &str, attrs: &[Attr]) -> Option<usize>
    ensures { result ≡ slot slots.now tag.now attrs.now }
{
    fitting_slot(slots, tag, attrs).or_else(|| default_slot(slots))
}
