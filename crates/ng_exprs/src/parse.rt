//! The rules of expressions. What stands in brackets is read by a function value, so that each rule is proved by itself.

ghost use Rattle.std.specs.Prelude.{◌≡◌, ◌≤◌, [], ◌∷◌, IfOk};
ghost use Rattle.ng_exprs.specs.Grammar.{literal_of};
ghost use Rattle.ng_exprs.specs.Parse as spec;
ghost use Rattle.ng_exprs.specs.Gives.{Gives, Nests};

use crate::halt::Halt;
use crate::tokens::Tokens;
use ng_ast::{Binary, Expr, Place, Unary};
use ng_tokens::{Kind, Sign, Token, same_text};
use ng_values::{NgText, Value};
use sqlite_items::{Boxed, Items};
use std::alloc::{AllocError, Global};

/// One more than the tokens that an expression may have.
pub const TURNS: usize = 257;

fn operator(sign: Option<Sign>) -> Option<Binary>
    ensures { result ≡ spec.infix_at sign }
{
    match sign? {
        Sign::Or => Some(Binary::Or),
        Sign::And => Some(Binary::And),
        Sign::OrNull => Some(Binary::OrNull),
        Sign::Eq => Some(Binary::Eq),
        Sign::Ne => Some(Binary::Ne),
        Sign::Same => Some(Binary::Same),
        Sign::NotSame => Some(Binary::NotSame),
        Sign::Lt => Some(Binary::Lt),
        Sign::Le => Some(Binary::Le),
        Sign::Gt => Some(Binary::Gt),
        Sign::Ge => Some(Binary::Ge),
        Sign::Plus => Some(Binary::Add),
        Sign::Minus => Some(Binary::Sub),
        Sign::Star => Some(Binary::Mul),
        Sign::Slash => Some(Binary::Div),
        Sign::Percent => Some(Binary::Rem),
        _ => None,
    }
}

fn prefix(sign: Option<Sign>) -> Option<Unary>
    ensures { result ≡ spec.prefix_at sign }
{
    match sign? {
        Sign::Not => Some(Unary::Not),
        Sign::Minus => Some(Unary::Neg),
        Sign::Plus => Some(Unary::Plus),
        _ => None,
    }
}

fn below(operator: Binary) -> u8
    ensures { result ≡ spec.below operator }
{
    match operator {
        Binary::Mul | Binary::Div | Binary::Rem => 1,
        Binary::Add | Binary::Sub => 2,
        Binary::Lt | Binary::Le | Binary::Gt | Binary::Ge => 3,
        Binary::Eq | Binary::Ne | Binary::Same | Binary::NotSame => 4,
        Binary::OrNull => 5,
        Binary::And => 6,
        Binary::Or => 7,
    }
}

/// The operator, if it is one over operands of this rank.
fn of_rank(rank: u8, found: Option<Binary>) -> Option<Binary>
    ensures { result ≡ spec.of_rank rank found }
{
    match found {
        Some(operator) if below(operator) == rank => Some(operator),
        _ => None,
    }
}

/// The literal that the name is, if it is one.
#[tactic(auto, unfolding(crate::specs::Grammar::literal_of))]
fn literal(name: &str) -> Option<Value>
    ensures { result ≡ literal_of name.now }
{
    let name = name.as_bytes();
    if same_text(b"null", name) || same_text(b"undefined", name) {
        Some(Value::Null)
    } else if same_text(b"true", name) {
        Some(Value::Bool(true))
    } else if same_text(b"false", name) {
        Some(Value::Bool(false))
    } else {
        None
    }
}

fn named(place: Place, name: NgText) -> (bool, Expr)
    ensures { result ≡ spec.named place name (literal_of name) }
{
    match literal(name.as_str()) {
        Some(value) => (false, Expr::Literal(place, value)),
        None => (true, Expr::Name(place, name)),
    }
}

fn binary(alloc: Global, place: Place, op: Binary, a: Expr, b: Expr) -> Result<Expr, AllocError>
    ensures { IfOk result (λ e. e ≡ Expr.Binary place op a b) }
{
    Ok(Expr::Binary(place, op, Boxed::new(alloc, a)?, Boxed::new(alloc, b)?))
}

/// The rules at a place where some brackets are open.
#[derive(Clone, Copy)]
pub struct Rules<F> {
    pub alloc: Global,
    /// How many more brackets may be open.
    pub depth: usize,
    /// Reads what stands in brackets.
    pub whole: F,
}

impl<F: Fn(Global, &mut Tokens, usize) -> Result<Expr, Halt>> Rules<F> {
    fn within(&self, tokens: &mut Tokens) -> Result<Expr, Halt>
        requires { Nests self.now.depth (F.pre self.now.whole) (F.post self.now.whole) }
        ensures { Gives (spec.whole spec.turns self.now.depth tokens.old) result tokens.new }
    {
        (self.whole)(self.alloc, tokens, self.depth)
    }

    fn some_of(&self, tokens: &mut Tokens, turns: usize) -> Result<Items<Expr>, Halt>
        requires { Nests self.now.depth (F.pre self.now.whole) (F.post self.now.whole) }
        ensures { Gives (spec.some_of (spec.whole spec.turns self.now.depth) turns tokens.old) result tokens.new }
    {
        let mut found = Items::new(self.alloc);
        for _turn in 0..turns {
            found.push(self.within(tokens)?)?;
            if !tokens.sees(Sign::Comma) {
                return Ok(found);
            }
            tokens.skip();
        }
        Err(Halt::Limit(tokens.at()))
    }

    #[tactic(auto, unfolding(crate::specs::Parse::all_of, crate::specs::Parse::turns))]
    fn all_of(&self, tokens: &mut Tokens, close: Sign) -> Result<Items<Expr>, Halt>
        requires { Nests self.now.depth (F.pre self.now.whole) (F.post self.now.whole) }
        ensures { Gives (spec.all_of (spec.brackets spec.turns self.now.depth) (spec.whole spec.turns self.now.depth) close tokens.old) result tokens.new }
    {
        if self.depth == 0 {
            return Err(Halt::Limit(tokens.at()));
        }
        if tokens.sees(close) {
            tokens.skip();
            return Ok(Items::new(self.alloc));
        }
        let found = self.some_of(tokens, TURNS)?;
        tokens.expect(close)?;
        Ok(found)
    }

    #[tactic(auto, unfolding(crate::specs::Parse::pair))]
    fn pair(&self, tokens: &mut Tokens) -> Result<(NgText, Expr), Halt>
        requires { Nests self.now.depth (F.pre self.now.whole) (F.post self.now.whole) }
        ensures { Gives (spec.pair (spec.brackets spec.turns self.now.depth) tokens.old) result tokens.new }
    {
        let key = tokens.key()?;
        tokens.expect(Sign::Colon)?;
        let value = self.within(tokens)?;
        Ok((key, value))
    }

    fn some_pairs(&self, tokens: &mut Tokens, turns: usize) -> Result<Items<(NgText, Expr)>, Halt>
        requires { Nests self.now.depth (F.pre self.now.whole) (F.post self.now.whole) }
        ensures { Gives (spec.some_of (spec.pair (spec.brackets spec.turns self.now.depth)) turns tokens.old) result tokens.new }
    {
        let mut found = Items::new(self.alloc);
        for _turn in 0..turns {
            found.push(self.pair(tokens)?)?;
            if !tokens.sees(Sign::Comma) {
                return Ok(found);
            }
            tokens.skip();
        }
        Err(Halt::Limit(tokens.at()))
    }

    #[tactic(auto, unfolding(crate::specs::Parse::all_of, crate::specs::Parse::turns))]
    fn pairs(&self, tokens: &mut Tokens) -> Result<Items<(NgText, Expr)>, Halt>
        requires { Nests self.now.depth (F.pre self.now.whole) (F.post self.now.whole) }
        ensures { Gives (spec.all_of (spec.brackets spec.turns self.now.depth) (spec.pair (spec.brackets spec.turns self.now.depth)) Sign.CloseBrace tokens.old) result tokens.new }
    {
        if self.depth == 0 {
            return Err(Halt::Limit(tokens.at()));
        }
        if tokens.sees(Sign::CloseBrace) {
            tokens.skip();
            return Ok(Items::new(self.alloc));
        }
        let found = self.some_pairs(tokens, TURNS)?;
        tokens.expect(Sign::CloseBrace)?;
        Ok(found)
    }

    #[tactic(auto, unfolding(crate::specs::Parse::group))]
    fn group(&self, tokens: &mut Tokens, place: Place) -> Result<Expr, Halt>
        requires { Nests self.now.depth (F.pre self.now.whole) (F.post self.now.whole) }
        ensures { Gives (spec.group (spec.brackets spec.turns self.now.depth) place tokens.old) result tokens.new }
    {
        let inner = self.within(tokens)?;
        if let Err(halt) = tokens.expect(Sign::CloseRound) {
            // by a call, which is proved once
            drop(inner);
            return Err(halt);
        }
        Ok(Expr::Group(place, Boxed::new(self.alloc, inner)?))
    }

    #[tactic(auto, unfolding(crate::specs::Parse::list))]
    fn list(&self, tokens: &mut Tokens, place: Place) -> Result<Expr, Halt>
        requires { Nests self.now.depth (F.pre self.now.whole) (F.post self.now.whole) }
        ensures { Gives (spec.list (spec.brackets spec.turns self.now.depth) place tokens.old) result tokens.new }
    {
        Ok(Expr::List(place, self.all_of(tokens, Sign::CloseSquare)?))
    }

    #[tactic(auto, unfolding(crate::specs::Parse::rec))]
    fn rec(&self, tokens: &mut Tokens, place: Place) -> Result<Expr, Halt>
        requires { Nests self.now.depth (F.pre self.now.whole) (F.post self.now.whole) }
        ensures { Gives (spec.rec (spec.brackets spec.turns self.now.depth) place tokens.old) result tokens.new }
    {
        Ok(Expr::Rec(place, self.pairs(tokens)?))
    }

    /// An operand, and whether it is a name.
    #[tactic(auto, unfolding(crate::specs::Parse::atom))]
    fn atom(&self, tokens: &mut Tokens) -> Result<(bool, Expr), Halt>
        requires { Nests self.now.depth (F.pre self.now.whole) (F.post self.now.whole) }
        ensures { Gives (spec.atom (spec.brackets spec.turns self.now.depth) tokens.old) result tokens.new }
    {
        let place = tokens.at();
        let Some(Token { kind, place }) = tokens.next() else {
            return Err(Halt::Syntax(place));
        };
        match kind {
            Kind::Number(n) => Ok((false, Expr::Literal(place, Value::Int(n)))),
            Kind::Text(text) => Ok((false, Expr::Literal(place, Value::Text(text)))),
            Kind::Name(name) => Ok(named(place, name)),
            Kind::Variable(name) => Ok((true, Expr::Name(place, name))),
            Kind::Sign(Sign::OpenRound) => Ok((false, self.group(tokens, place)?)),
            Kind::Sign(Sign::OpenSquare) => Ok((false, self.list(tokens, place)?)),
            Kind::Sign(Sign::OpenBrace) => Ok((false, self.rec(tokens, place)?)),
            Kind::Sign(_) => Err(Halt::Syntax(place)),
        }
    }

    #[tactic(auto, unfolding(crate::specs::Parse::member))]
    fn member(&self, tokens: &mut Tokens, place: Place, owner: Expr) -> Result<Expr, Halt>
        ensures { Gives (spec.member (spec.brackets spec.turns self.now.depth) place owner tokens.old) result tokens.new }
    {
        let owner = Boxed::new(self.alloc, owner)?;
        let name = tokens.name()?;
        Ok(Expr::Member(place, owner, name))
    }

    #[tactic(auto, unfolding(crate::specs::Parse::safe))]
    fn safe(&self, tokens: &mut Tokens, place: Place, owner: Expr) -> Result<Expr, Halt>
        ensures { Gives (spec.safe (spec.brackets spec.turns self.now.depth) place owner tokens.old) result tokens.new }
    {
        let owner = Boxed::new(self.alloc, owner)?;
        let name = tokens.name()?;
        Ok(Expr::Safe(place, owner, name))
    }

    #[tactic(auto, unfolding(crate::specs::Parse::index))]
    fn index(&self, tokens: &mut Tokens, place: Place, owner: Expr) -> Result<Expr, Halt>
        requires { Nests self.now.depth (F.pre self.now.whole) (F.post self.now.whole) }
        ensures { Gives (spec.index (spec.brackets spec.turns self.now.depth) place owner tokens.old) result tokens.new }
    {
        let owner = Boxed::new(self.alloc, owner)?;
        let at = Boxed::new(self.alloc, self.within(tokens)?)?;
        tokens.expect(Sign::CloseSquare)?;
        Ok(Expr::Index(place, owner, at))
    }

    #[tactic(auto, unfolding(crate::specs::Parse::call))]
    fn call(&self, tokens: &mut Tokens, place: Place, callee: Expr) -> Result<Expr, Halt>
        requires { Nests self.now.depth (F.pre self.now.whole) (F.post self.now.whole) }
        ensures { Gives (spec.call (spec.brackets spec.turns self.now.depth) place callee tokens.old) result tokens.new }
    {
        let callee = Boxed::new(self.alloc, callee)?;
        let args = self.all_of(tokens, Sign::CloseRound)?;
        Ok(Expr::Call(place, callee, args))
    }

    /// What follows an operand; `named` says that it ends in a name, so that a call may follow.
    #[tactic(auto, unfolding(crate::specs::Parse::followed))]
    fn followed(
        &self,
        tokens: &mut Tokens,
        turns: usize,
        place: Place,
        first: Expr,
        first_named: bool,
    ) -> Result<Expr, Halt>
        requires { Nests self.now.depth (F.pre self.now.whole) (F.post self.now.whole) }
        ensures { Gives (spec.followed (spec.brackets spec.turns self.now.depth) turns first_named place first tokens.old) result tokens.new }
    {
        let mut owner = first;
        let mut named = first_named;
        for _turn in 0..turns {
            match tokens.peek() {
                Some(Sign::Dot) => {
                    tokens.skip();
                    owner = self.member(tokens, place, owner)?;
                    named = true;
                }
                Some(Sign::SafeDot) => {
                    tokens.skip();
                    owner = self.safe(tokens, place, owner)?;
                    named = true;
                }
                Some(Sign::OpenSquare) => {
                    tokens.skip();
                    owner = self.index(tokens, place, owner)?;
                    named = false;
                }
                Some(Sign::OpenRound) if named => {
                    tokens.skip();
                    owner = self.call(tokens, place, owner)?;
                    named = false;
                }
                _ => return Ok(owner),
            }
        }
        Err(Halt::Limit(tokens.at()))
    }

    #[tactic(auto, unfolding(crate::specs::Parse::chain, crate::specs::Parse::turns))]
    fn chain(&self, tokens: &mut Tokens) -> Result<Expr, Halt>
        requires { Nests self.now.depth (F.pre self.now.whole) (F.post self.now.whole) }
        ensures { Gives (spec.chain (spec.brackets spec.turns self.now.depth) tokens.old) result tokens.new }
    {
        let place = tokens.place();
        let (named, first) = self.atom(tokens)?;
        self.followed(tokens, TURNS, place, first, named)
    }

    fn prefixed(&self, tokens: &mut Tokens, turns: usize) -> Result<Expr, Halt>
        requires { Nests self.now.depth (F.pre self.now.whole) (F.post self.now.whole) }
        ensures { Gives (spec.prefixed (spec.brackets spec.turns self.now.depth) turns tokens.old) result tokens.new }
    {
        let place = tokens.place();
        if turns == 0 {
            return Err(Halt::Limit(place));
        }
        let Some(op) = prefix(tokens.peek()) else {
            return self.chain(tokens);
        };
        tokens.skip();
        let operand = self.prefixed(tokens, turns - 1)?;
        Ok(Expr::Unary(place, op, Boxed::new(self.alloc, operand)?))
    }

    fn ranked(&self, tokens: &mut Tokens, rank: u8) -> Result<Expr, Halt>
        requires { Nests self.now.depth (F.pre self.now.whole) (F.post self.now.whole) }
        ensures { Gives (spec.ranked (spec.brackets spec.turns self.now.depth) rank tokens.old) result tokens.new }
    {
        if rank == 0 {
            return self.prefixed(tokens, TURNS);
        }
        let place = tokens.place();
        let mut left = self.ranked(tokens, rank - 1)?;
        for _turn in 0..TURNS {
            let Some(op) = of_rank(rank, operator(tokens.peek())) else {
                return Ok(left);
            };
            tokens.skip();
            let right = self.ranked(tokens, rank - 1)?;
            left = binary(self.alloc, place, op, left, right)?;
        }
        Err(Halt::Limit(tokens.at()))
    }

    fn chosen(&self, tokens: &mut Tokens, turns: usize) -> Result<Expr, Halt>
        requires { Nests self.now.depth (F.pre self.now.whole) (F.post self.now.whole) }
        ensures { Gives (spec.chosen (spec.brackets spec.turns self.now.depth) turns tokens.old) result tokens.new }
    {
        let place = tokens.place();
        if turns == 0 {
            return Err(Halt::Limit(place));
        }
        let test = self.ranked(tokens, 7)?;
        if !tokens.sees(Sign::Question) {
            return Ok(test);
        }
        tokens.skip();
        let test = Boxed::new(self.alloc, test)?;
        let yes = self.chosen(tokens, turns - 1)?;
        let yes = Boxed::new(self.alloc, yes)?;
        tokens.expect(Sign::Colon)?;
        let no = self.chosen(tokens, turns - 1)?;
        let no = Boxed::new(self.alloc, no)?;
        Ok(Expr::Choose(place, test, yes, no))
    }

    fn arguments(&self, tokens: &mut Tokens, turns: usize) -> Result<Items<Expr>, Halt>
        requires { Nests self.now.depth (F.pre self.now.whole) (F.post self.now.whole) }
        ensures { Gives (spec.arguments (spec.brackets spec.turns self.now.depth) turns tokens.old) result tokens.new }
    {
        let mut found = Items::new(self.alloc);
        for _turn in 0..turns {
            if !tokens.sees(Sign::Colon) {
                return Ok(found);
            }
            tokens.skip();
            found.push(self.chosen(tokens, TURNS)?)?;
        }
        Err(Halt::Limit(tokens.at()))
    }

    #[tactic(auto, unfolding(crate::specs::Parse::pipe, crate::specs::Parse::turns))]
    fn pipe(&self, tokens: &mut Tokens, place: Place, value: Expr) -> Result<Expr, Halt>
        requires { Nests self.now.depth (F.pre self.now.whole) (F.post self.now.whole) }
        ensures { Gives (spec.pipe (spec.brackets spec.turns self.now.depth) place value tokens.old) result tokens.new }
    {
        let value = Boxed::new(self.alloc, value)?;
        let name = tokens.name()?;
        let arguments = self.arguments(tokens, TURNS)?;
        Ok(Expr::Pipe(place, value, name, arguments))
    }

    fn pipes(
        &self,
        tokens: &mut Tokens,
        turns: usize,
        place: Place,
        first: Expr,
    ) -> Result<Expr, Halt>
        requires { Nests self.now.depth (F.pre self.now.whole) (F.post self.now.whole) }
        ensures { Gives (spec.pipes (spec.brackets spec.turns self.now.depth) turns place first tokens.old) result tokens.new }
    {
        let mut value = first;
        for _turn in 0..turns {
            if !tokens.sees(Sign::Bar) {
                return Ok(value);
            }
            tokens.skip();
            value = self.pipe(tokens, place, value)?;
        }
        Err(Halt::Limit(tokens.at()))
    }

    #[tactic(auto, unfolding(crate::specs::Parse::piped, crate::specs::Parse::turns))]
    fn piped(&self, tokens: &mut Tokens) -> Result<Expr, Halt>
        requires { Nests self.now.depth (F.pre self.now.whole) (F.post self.now.whole) }
        ensures { Gives (spec.piped (spec.brackets spec.turns self.now.depth) tokens.old) result tokens.new }
    {
        let place = tokens.place();
        let first = self.chosen(tokens, TURNS)?;
        self.pipes(tokens, TURNS, place, first)
    }
}

/// An expression with fewer brackets open than `depth`.
pub fn whole(alloc: Global, tokens: &mut Tokens, depth: usize) -> Result<Expr, Halt>
    ensures { Gives (spec.whole spec.turns depth tokens.old) result tokens.new }
{
    if depth == 0 {
        return Err(Halt::Limit(tokens.at()));
    }
    let rules = Rules {
        alloc,
        depth: depth - 1,
        whole,
    };
    rules.piped(tokens)
}
