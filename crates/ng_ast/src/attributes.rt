ghost use Rattle.std.specs.Prelude.{◌≡◌, IfOk};

use crate::parts::{Part, both, copy_name, copy_parts};
use crate::statements::copy_stmts;
use crate::{AttrForm, OutletForm, Piece, TAttr};
use sqlite_items::Boxed;
use std::alloc::{AllocError, Global};

impl Part for Piece {
    fn copy_part(&self, alloc: Global) -> Result<Piece, AllocError> {
        match self {
            Piece::Text(text) => Ok(Piece::Text(text.copy()?)),
            Piece::Value(place, value) => Ok(Piece::Value(*place, value.copy(alloc)?)),
        }
    }
}

impl OutletForm {
    #[cycle(copy_outlet)]
    fn copy(&self, alloc: Global) -> Result<OutletForm, AllocError>
        ensures { IfOk result (λ copy. copy ≡ self.now) }
    {
        match self {
            OutletForm::Null => Ok(OutletForm::Null),
            OutletForm::Name(place, name) => Ok(OutletForm::Name(*place, name.copy()?)),
            OutletForm::Choose(place, test, then, other) => {
                let then = then.get().copy_boxed(alloc);
                let sides = both(then, other.get().copy_boxed(alloc));
                let (test, (then, other)) = both(test.copy(alloc), sides)?;
                Ok(OutletForm::Choose(*place, test, then, other))
            }
        }
    }

    #[cycle(copy_outlet)]
    fn copy_boxed(&self, alloc: Global) -> Result<Boxed<OutletForm>, AllocError>
        ensures { IfOk result (λ copy. copy ≡ self.now) }
    {
        let copy = self.copy(alloc)?;
        Boxed::new(alloc, copy)
    }
}

impl AttrForm {
    fn copy(&self, alloc: Global) -> Result<AttrForm, AllocError>
        ensures { IfOk result (λ copy. copy ≡ self.now) }
    {
        match self {
            AttrForm::Static(text) => Ok(AttrForm::Static(text.copy()?)),
            AttrForm::Joined(pieces) => Ok(AttrForm::Joined(copy_parts(alloc, pieces)?)),
            AttrForm::Property(value) => Ok(AttrForm::Property(value.copy(alloc)?)),
            AttrForm::Attribute(value) => Ok(AttrForm::Attribute(value.copy(alloc)?)),
            AttrForm::Class(value) => Ok(AttrForm::Class(value.copy(alloc)?)),
            AttrForm::Style(unit, value) => {
                let (unit, value) = both(copy_name(unit), value.copy(alloc))?;
                Ok(AttrForm::Style(unit, value))
            }
            AttrForm::Listener(stmts) => {
                Ok(AttrForm::Listener(copy_stmts(alloc, stmts.as_slice())?))
            }
            AttrForm::Both(field) => Ok(AttrForm::Both(field.copy()?)),
            AttrForm::Reference => Ok(AttrForm::Reference),
            AttrForm::Variable(member) => Ok(AttrForm::Variable(copy_name(member)?)),
            AttrForm::Outlet(outlet) => Ok(AttrForm::Outlet(outlet.copy(alloc)?)),
            AttrForm::Context(value) => Ok(AttrForm::Context(value.copy(alloc)?)),
        }
    }
}

impl Part for TAttr {
    fn copy_part(&self, alloc: Global) -> Result<TAttr, AllocError> {
        let (name, form) = both(self.name.copy(), self.form.copy(alloc))?;
        Ok(TAttr {
            place: self.place,
            name,
            form,
        })
    }
}
