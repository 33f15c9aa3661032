//! Lists of positions.

ghost use Rattle.std.specs.Prelude.{◌≡◌, ◌++◌, OnOk};
ghost use Rattle.ng_hosts.specs.Hosts.{when_at};

use std::alloc::AllocError;

/// Adds the position, if it is wanted.
pub(crate) fn push_if(wanted: bool, at: usize, found: &mut Vec<usize>) -> Result<(), AllocError>
    ensures { OnOk result (found.new.items ≡ found.old.items ++ when_at wanted at) }
{
    if wanted {
        found.push(at)?;
        return Ok(());
    }
    Ok(())
}
