//! Bodies: statements with `if`. What stands in braces is read by a function value, so that each rule is proved by itself.

ghost use Rattle.std.specs.Prelude.{◌≡◌, ◌<◌};
ghost use Rattle.ng_exprs.specs.Parse.{turns as loops};
ghost use Rattle.ng_exprs.specs.Lines.{most};
ghost use Rattle.ng_exprs.specs.Blocks as spec;
ghost use Rattle.ng_exprs.specs.Gives.{Gives};

use crate::halt::Halt;
use crate::lines::{MOST, args, simple};
use crate::tokens::Tokens;
use ng_ast::{Expr, Place, Stmt};
use ng_tokens::Sign;
use sqlite_items::Items;
use std::alloc::Global;

// No further statement stands here.
fn is_over(tokens: &Tokens) -> bool
    ensures { result ≡ spec.is_over tokens.now }
{
    tokens.len() == 0 || tokens.sees(Sign::CloseBrace)
}

// The only one of the expressions, if it is one.
fn only(mut found: Items<Expr>) -> Option<Expr>
    ensures { result ≡ spec.only found }
{
    if found.len() == 1 { found.pop() } else { None }
}

/// The rules of bodies at a place where some brackets are open.
#[derive(Clone, Copy)]
pub struct Blocks<F> {
    alloc: Global,
    /// How many more brackets may be open.
    depth: usize,
    /// Reads what stands in braces.
    inner: F,
}

impl<F: Fn(Global, &mut Tokens, usize) -> Result<Items<Stmt>, Halt>> Blocks<F> {
    #[tactic(auto, unfolding(crate::specs::Blocks::block))]
    fn block(&self, tokens: &mut Tokens) -> Result<Items<Stmt>, Halt>
        requires { spec.Encloses self.now.depth (F.pre self.now.inner) (F.post self.now.inner) }
        ensures { Gives (spec.block (spec.body loops 256 most self.now.depth) tokens.old) result tokens.new }
    {
        tokens.expect(Sign::OpenBrace)?;
        let found = (self.inner)(self.alloc, tokens, self.depth)?;
        tokens.expect(Sign::CloseBrace)?;
        Ok(found)
    }

    /// The `else` part, if one stands there.
    #[tactic(auto, unfolding(crate::specs::Blocks::other))]
    fn other(&self, tokens: &mut Tokens) -> Result<Items<Stmt>, Halt>
        requires { spec.Encloses self.now.depth (F.pre self.now.inner) (F.post self.now.inner) }
        ensures { Gives (spec.other (spec.body loops 256 most self.now.depth) tokens.old) result tokens.new }
    {
        if !tokens.sees_word(b"else", Sign::OpenBrace) {
            return Ok(Items::new(self.alloc));
        }
        tokens.skip();
        self.block(tokens)
    }

    /// The blocks of an `if`, after its test.
    #[tactic(auto, unfolding(crate::specs::Blocks::branch))]
    fn branch(&self, tokens: &mut Tokens, place: Place, test: Expr) -> Result<Stmt, Halt>
        requires { spec.Encloses self.now.depth (F.pre self.now.inner) (F.post self.now.inner) }
        ensures { Gives (spec.branch (spec.body loops 256 most self.now.depth) place test tokens.old) result tokens.new }
    {
        let yes = self.block(tokens)?;
        let no = self.other(tokens)?;
        Ok(Stmt::If(place, test, yes, no))
    }

    /// An `if`, or a call of something that is called so.
    #[tactic(auto, unfolding(crate::specs::Blocks::conditional))]
    fn conditional(&self, tokens: &mut Tokens, place: Place) -> Result<Stmt, Halt>
        requires room { self.now.depth < 1000 }
        requires inner { spec.Encloses self.now.depth (F.pre self.now.inner) (F.post self.now.inner) }
        ensures { Gives (spec.conditional loops 256 most (spec.body loops 256 most self.now.depth) self.now.depth place tokens.old) result tokens.new }
    {
        let name = tokens.name()?;
        tokens.expect(Sign::OpenRound)?;
        let found = args(self.alloc, tokens, self.depth)?;
        if !tokens.sees(Sign::OpenBrace) {
            tokens.expect(Sign::Semicolon)?;
            return Ok(Stmt::Do(place, name, found));
        }
        match only(found) {
            Some(test) => self.branch(tokens, place, test),
            None => Err(Halt::Syntax(place)),
        }
    }

    #[tactic(auto, unfolding(crate::specs::Blocks::statement))]
    fn statement(&self, tokens: &mut Tokens) -> Result<Stmt, Halt>
        requires room { self.now.depth < 1000 }
        requires inner { spec.Encloses self.now.depth (F.pre self.now.inner) (F.post self.now.inner) }
        ensures { Gives (spec.statement loops 256 most (spec.body loops 256 most self.now.depth) self.now.depth tokens.old) result tokens.new }
    {
        let place = tokens.place();
        if tokens.sees_word(b"if", Sign::OpenRound) {
            return self.conditional(tokens, place);
        }
        let found = simple(self.alloc, tokens, self.depth)?;
        if let Err(halt) = tokens.expect(Sign::Semicolon) {
            // by a call, which is proved once
            drop(found);
            return Err(halt);
        }
        Ok(found)
    }

    fn statements(&self, tokens: &mut Tokens, turns: usize) -> Result<Items<Stmt>, Halt>
        requires room { self.now.depth < 1000 }
        requires inner { spec.Encloses self.now.depth (F.pre self.now.inner) (F.post self.now.inner) }
        ensures { Gives (spec.statements loops 256 most (spec.body loops 256 most self.now.depth) self.now.depth turns tokens.old) result tokens.new }
    {
        let mut found = Items::new(self.alloc);
        for _turn in 0..turns {
            if is_over(tokens) {
                return Ok(found);
            }
            found.push(self.statement(tokens)?)?;
        }
        Err(Halt::Syntax(tokens.at()))
    }
}

/// A body, or what stands in braces, with fewer brackets open than `depth`.
pub fn body(alloc: Global, tokens: &mut Tokens, depth: usize) -> Result<Items<Stmt>, Halt>
    requires { depth < 1000 }
    ensures { Gives (spec.body loops 256 most depth tokens.old) result tokens.new }
{
    if depth == 0 {
        return Err(Halt::Limit(tokens.at()));
    }
    let blocks = Blocks {
        alloc,
        depth: depth - 1,
        inner: body,
    };
    blocks.statements(tokens, MOST)
}
