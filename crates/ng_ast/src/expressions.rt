ghost use Rattle.std.specs.Prelude.{◌≡◌, IfOk};

use crate::Expr;
use crate::parts::{both, push};
use ng_values::NgText;
use sqlite_items::{Boxed, Items};
use std::alloc::{AllocError, Global};

impl Expr {
    /// An equal expression. Its own lists and boxes are made anew, and texts and values are shared,
    /// so the cost is the number of its parts.
    #[cycle(copy_expr)]
    pub fn copy(&self, alloc: Global) -> Result<Expr, AllocError>
        ensures { IfOk result (λ copy. copy ≡ self.now) }
    {
        match self {
            Expr::Literal(place, value) => Ok(Expr::Literal(*place, value.copy()?)),
            Expr::Name(place, name) => Ok(Expr::Name(*place, name.copy()?)),
            Expr::Group(place, inner) => Ok(Expr::Group(*place, inner.get().copy_boxed(alloc)?)),
            Expr::List(place, items) => Ok(Expr::List(
                *place,
                copy_exprs(alloc, items.as_slice())?,
            )),
            Expr::Rec(place, pairs) => Ok(Expr::Rec(*place, copy_pairs(alloc, pairs.as_slice())?)),
            Expr::Unary(place, op, inner) => {
                Ok(Expr::Unary(*place, *op, inner.get().copy_boxed(alloc)?))
            }
            Expr::Binary(place, op, left, right) => {
                let left = left.get().copy_boxed(alloc);
                let (left, right) = both(left, right.get().copy_boxed(alloc))?;
                Ok(Expr::Binary(*place, *op, left, right))
            }
            Expr::Choose(place, test, then, other) => {
                let test = test.get().copy_boxed(alloc);
                let then = then.get().copy_boxed(alloc);
                let sides = both(then, other.get().copy_boxed(alloc));
                let (test, (then, other)) = both(test, sides)?;
                Ok(Expr::Choose(*place, test, then, other))
            }
            Expr::Member(place, of, name) => {
                let (of, name) = both(of.get().copy_boxed(alloc), name.copy())?;
                Ok(Expr::Member(*place, of, name))
            }
            Expr::Safe(place, of, name) => {
                let (of, name) = both(of.get().copy_boxed(alloc), name.copy())?;
                Ok(Expr::Safe(*place, of, name))
            }
            Expr::Index(place, of, at) => {
                let of = of.get().copy_boxed(alloc);
                let (of, at) = both(of, at.get().copy_boxed(alloc))?;
                Ok(Expr::Index(*place, of, at))
            }
            Expr::Call(place, callee, arguments) => {
                let callee = callee.get().copy_boxed(alloc);
                let (callee, arguments) = both(callee, copy_exprs(alloc, arguments.as_slice()))?;
                Ok(Expr::Call(*place, callee, arguments))
            }
            Expr::Pipe(place, input, name, arguments) => {
                let input = input.get().copy_boxed(alloc);
                let named = both(name.copy(), copy_exprs(alloc, arguments.as_slice()));
                let (input, (name, arguments)) = both(input, named)?;
                Ok(Expr::Pipe(*place, input, name, arguments))
            }
        }
    }

    #[cycle(copy_expr)]
    fn copy_boxed(&self, alloc: Global) -> Result<Boxed<Expr>, AllocError>
        ensures { IfOk result (λ copy. copy ≡ self.now) }
    {
        let copy = self.copy(alloc)?;
        Boxed::new(alloc, copy)
    }
}

/// An equal list of expressions.
#[cycle(copy_expr)]
pub(crate) fn copy_exprs(alloc: Global, exprs: &[Expr]) -> Result<Items<Expr>, AllocError>
    ensures { IfOk result (λ copy. copy ≡ exprs.now) }
{
    let mut copies = Vec::with_capacity(alloc, exprs.len())?;
    for expr in exprs {
        push(&mut copies, expr.copy(alloc)?)?;
    }
    Ok(Items::from_vec(copies))
}

#[cycle(copy_expr)]
fn copy_pairs(alloc: Global, pairs: &[(NgText, Expr)]) -> Result<Items<(NgText, Expr)>, AllocError>
    ensures { IfOk result (λ copy. copy ≡ pairs.now) }
{
    let mut copies = Vec::with_capacity(alloc, pairs.len())?;
    for pair in pairs {
        let copy = both(pair.0.copy(), pair.1.copy(alloc))?;
        push(&mut copies, copy)?;
    }
    Ok(Items::from_vec(copies))
}

/// An equal expression, where there is one.
pub(crate) fn copy_test(alloc: Global, test: &Option<Expr>) -> Result<Option<Expr>, AllocError>
    ensures { IfOk result (λ copy. copy ≡ test.now) }
{
    match test {
        None => Ok(None),
        Some(test) => Ok(Some(test.copy(alloc)?)),
    }
}
