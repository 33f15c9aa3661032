ghost use Rattle.std.specs.Prelude.{◌≡◌, IfOk};

use crate::expressions::copy_exprs;
use crate::parts::{both, push};
use crate::{Expr, Owner, Place, Stmt};
use ng_values::NgText;
use sqlite_items::Items;
use std::alloc::{AllocError, Global};

impl Owner {
    pub(crate) fn copy(&self, alloc: Global) -> Result<Owner, AllocError>
        ensures { IfOk result (λ copy. copy ≡ self.now) }
    {
        match self {
            Owner::Name(place, name) => Ok(Owner::Name(*place, name.copy()?)),
            Owner::Safe(place, name) => Ok(Owner::Safe(*place, name.copy()?)),
            Owner::Item(place, name, at) => {
                let (name, at) = both(name.copy(), at.copy(alloc))?;
                Ok(Owner::Item(*place, name, at))
            }
        }
    }
}

impl Stmt {
    #[cycle(copy_stmt)]
    fn copy(&self, alloc: Global) -> Result<Stmt, AllocError>
        ensures { IfOk result (λ copy. copy ≡ self.now) }
    {
        match self {
            Stmt::Set(place, name, value) => Ok(copy_set(alloc, *place, name, value)?),
            Stmt::Do(place, name, arguments) => Ok(copy_do(alloc, *place, name, arguments)?),
            Stmt::Send(place, owner, name, arguments) => {
                Ok(copy_send(alloc, *place, owner, name, arguments)?)
            }
            Stmt::If(place, test, then, other) => {
                let then = copy_stmts(alloc, then.as_slice());
                let sides = both(then, copy_stmts(alloc, other.as_slice()));
                let (test, (then, other)) = both(test.copy(alloc), sides)?;
                Ok(Stmt::If(*place, test, then, other))
            }
        }
    }
}

fn copy_set(alloc: Global, place: Place, name: &NgText, value: &Expr) -> Result<Stmt, AllocError>
    ensures { IfOk result (λ copy. copy ≡ Stmt.Set place name.now value.now) }
{
    let (name, value) = both(name.copy(), value.copy(alloc))?;
    Ok(Stmt::Set(place, name, value))
}

fn copy_do(
    alloc: Global,
    place: Place,
    name: &NgText,
    arguments: &Items<Expr>,
) -> Result<Stmt, AllocError>
    ensures { IfOk result (λ copy. copy ≡ Stmt.Do place name.now arguments.now) }
{
    let arguments = copy_exprs(alloc, arguments.as_slice());
    let (name, arguments) = both(name.copy(), arguments)?;
    Ok(Stmt::Do(place, name, arguments))
}

fn copy_send(
    alloc: Global,
    place: Place,
    owner: &Owner,
    name: &NgText,
    arguments: &Items<Expr>,
) -> Result<Stmt, AllocError>
    ensures { IfOk result (λ copy. copy ≡ Stmt.Send place owner.now name.now arguments.now) }
{
    let arguments = copy_exprs(alloc, arguments.as_slice());
    let call = both(name.copy(), arguments);
    let (owner, (name, arguments)) = both(owner.copy(alloc), call)?;
    Ok(Stmt::Send(place, owner, name, arguments))
}

/// An equal list of statements.
#[cycle(copy_stmt)]
pub(crate) fn copy_stmts(alloc: Global, stmts: &[Stmt]) -> Result<Items<Stmt>, AllocError>
    ensures { IfOk result (λ copy. copy ≡ stmts.now) }
{
    let mut copies = Vec::with_capacity(alloc, stmts.len())?;
    for stmt in stmts {
        push(&mut copies, stmt.copy(alloc)?)?;
    }
    Ok(Items::from_vec(copies))
}
