//! The name that is nearest to one that isn't there.

ghost use Rattle.std.specs.Prelude.{◌≡◌, ◌<◌, length, map, slice_get, IfOk, IfSome};
ghost use Rattle.ng_diagnoses.specs.Spelling.{reach, IsNear};

use std::alloc::{AllocError, Global};
use strsim::osa_distance;

// Names with more bytes than this are left out.
const LONGEST: usize = 64;

// How many edits may lead from a word of so many bytes to a name: a third of them, and fewer than all.
fn reach(length: usize) -> usize
    ensures { result ≡ reach length }
{
    (length / 3).max(1).min(length.saturating_sub(1))
}

/// Which of these names is nearest to a word and differs from it, the first of several, if one is near: if few edits, exchanges of neighbours
/// among them, lead to it.
pub fn nearest(alloc: Global, names: &[&str], word: &str) -> Result<Option<usize>, AllocError>
    ensures there { IfOk result (λ found. IfSome found (λ at. at < length names.now)) }
    ensures near { IfOk result (λ found. IfSome found (λ at. IfSome (slice_get (map (λ n. n.now) names.now) at) (IsNear word.now))) }
{
    if word.len() > LONGEST {
        return Ok(None);
    }
    let mut found = None;
    let mut least = reach(word.len()).saturating_add(1);
    for (index, name) in names.iter().enumerate() {
        if name.len() <= LONGEST {
            let distance = osa_distance(alloc, name, word)?;
            if 0 < distance && distance < least {
                least = distance;
                found = Some(index);
            }
        }
    }
    Ok(found)
}
