ghost use Rattle.std.specs.Prelude.{◌≡◌, IfOk};

use crate::parts::{both, copy_name, push};
use crate::{One, SelPart, Selector};
use sqlite_items::{Boxed, Items};
use std::alloc::{AllocError, Global};

impl Selector {
    pub(crate) fn copy(&self, alloc: Global) -> Result<Selector, AllocError>
        ensures { IfOk result (λ copy. copy ≡ self.now) }
    {
        let list = copy_ones(alloc, self.list.as_slice())?;
        Ok(Selector { list })
    }
}

impl One {
    #[cycle(copy_selector)]
    fn copy(&self, alloc: Global) -> Result<One, AllocError>
        ensures { IfOk result (λ copy. copy ≡ self.now) }
    {
        let parts = copy_sel_parts(alloc, self.parts.as_slice());
        let (tag, parts) = both(copy_name(&self.tag), parts)?;
        Ok(One { tag, parts })
    }
}

impl SelPart {
    #[cycle(copy_selector)]
    fn copy(&self, alloc: Global) -> Result<SelPart, AllocError>
        ensures { IfOk result (λ copy. copy ≡ self.now) }
    {
        match self {
            SelPart::Has(name) => Ok(SelPart::Has(name.copy()?)),
            SelPart::Is(name, value) => {
                let (name, value) = both(name.copy(), value.copy())?;
                Ok(SelPart::Is(name, value))
            }
            SelPart::Class(name) => Ok(SelPart::Class(name.copy()?)),
            SelPart::Not(inner) => {
                let inner = inner.get().copy(alloc)?;
                Ok(SelPart::Not(Boxed::new(alloc, inner)?))
            }
        }
    }
}

// The list of a selector isn't met again below a `:not`.
fn copy_ones(alloc: Global, ones: &[One]) -> Result<Items<One>, AllocError>
    ensures { IfOk result (λ copy. copy ≡ ones.now) }
{
    let mut copies = Vec::with_capacity(alloc, ones.len())?;
    for one in ones {
        push(&mut copies, one.copy(alloc)?)?;
    }
    Ok(Items::from_vec(copies))
}

#[cycle(copy_selector)]
fn copy_sel_parts(alloc: Global, parts: &[SelPart]) -> Result<Items<SelPart>, AllocError>
    ensures { IfOk result (λ copy. copy ≡ parts.now) }
{
    let mut copies = Vec::with_capacity(alloc, parts.len())?;
    for part in parts {
        push(&mut copies, part.copy(alloc)?)?;
    }
    Ok(Items::from_vec(copies))
}
