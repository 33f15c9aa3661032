//! Names with their places. What is said of `found` holds on `Ok`; after want of memory, the only error, it may have got some of what
//! was to be added.

ghost use Rattle.std.specs.Prelude.{◌≡◌, [], ◌∷◌, ◌++◌, OnOk};
ghost use Rattle.ng_parts.specs.Sites.{repeats, site, when};

use ng_ast::Place;
use ng_values::NgText;
use std::alloc::{AllocError, Global};
use std::collections::HashSet;

/// A place, with a name that stands there.
#[derive(Drop)]
pub struct Site {
    pub place: Place,
    pub name: NgText,
}

/// Adds the place with a copy of the name at the end of `found`.
pub fn push_site(place: Place, name: &NgText, found: &mut Vec<Site>) -> Result<(), AllocError>
    ensures { OnOk result (found.new.items ≡ found.old.items ++ site place name.now ∷ []) }
{
    let name = name.copy()?;
    found.push(Site { place, name })?;
    Ok(())
}

/// Adds the place with a copy of the name at the end of `found` if it is `wanted`, and else nothing.
pub fn push_if(
    wanted: bool,
    place: Place,
    name: &NgText,
    found: &mut Vec<Site>,
) -> Result<(), AllocError>
    ensures { OnOk result (found.new.items ≡ found.old.items ++ when wanted (site place name.now)) }
{
    if wanted {
        push_site(place, name, found)?;
        return Ok(());
    }
    Ok(())
}

/// Adds to `found`, in their order, the sites of `names` whose name is that of an earlier one, compared byte by byte. Of three with one
/// name these are the second and the third.
///
/// Each name is hashed once: the time is linear in the bytes of the names.
pub fn push_repeats(alloc: Global, names: &[Site], found: &mut Vec<Site>) -> Result<(), AllocError>
    ensures { OnOk result (found.new.items ≡ found.old.items ++ repeats names.now) }
{
    let mut seen = HashSet::new(alloc);
    for named in names {
        let key = named.name.copy()?;
        let is_new = seen.insert(key)?;
        push_if(!is_new, named.place, &named.name, found)?;
    }
    Ok(())
}
