//! What stands in quotes, and the first place of a word outside of them.

ghost use Rattle.std.specs.Prelude.{◌≡◌, ◌≤◌, ◌+◌, IfSome, length};
ghost use Rattle.ng_lex.specs.declared.quotes.Quoting.TheVariants as quoting;
ghost use Rattle.ng_lex.specs.Span as spec;
ghost use Rattle.ng_lex.specs.Words as words;
ghost use Rattle.ng_tokens.specs.Lexis as lexis;

use ng_tokens::begins;

/// Where a byte stands: outside of quotes, within those that this byte begins and ends, or there right after a backslash.
#[derive(Clone, Copy, Debug, PartialEq, Eq)]
pub enum Quoting {
    Outside,
    Within(u8),
    Escaped(u8),
}

/// The quotes that count: those of text literals, with their escapes, those of the values of attributes, or none.
#[derive(Clone, Copy, Debug, PartialEq, Eq)]
pub(crate) enum Quotes {
    Literals,
    Values,
    None,
}

fn is_quote(b: u8) -> bool
    ensures { result ≡ lexis.is_quote b }
{
    b == b'\'' || b == b'"'
}

fn opened(b: u8) -> Quoting
    ensures { result ≡ words.valued quoting.Outside b }
{
    if is_quote(b) {
        Quoting::Within(b)
    } else {
        Quoting::Outside
    }
}

// What a byte makes of the state, where a text literal may have escapes.
fn in_literal(state: Quoting, b: u8) -> Quoting
    ensures { result ≡ words.literal state b }
{
    match state {
        Quoting::Outside => opened(b),
        Quoting::Within(quote) if b == b'\\' => Quoting::Escaped(quote),
        Quoting::Within(quote) if b == quote => Quoting::Outside,
        Quoting::Within(quote) | Quoting::Escaped(quote) => Quoting::Within(quote),
    }
}

fn in_value(state: Quoting, b: u8) -> Quoting
    ensures { result ≡ words.valued state b }
{
    match state {
        Quoting::Outside => opened(b),
        Quoting::Within(quote) if b == quote => Quoting::Outside,
        Quoting::Within(quote) | Quoting::Escaped(quote) => Quoting::Within(quote),
    }
}

fn is_outside(state: Quoting) -> bool
    ensures { result ≡ words.is_outside state }
{
    matches!(state, Quoting::Outside)
}

impl Quotes {
    fn next(self, state: Quoting, b: u8) -> Quoting
        ensures { result ≡ spec.quoted self state b }
    {
        match self {
            Quotes::Literals => in_literal(state, b),
            Quotes::Values => in_value(state, b),
            Quotes::None => state,
        }
    }
}

/// The bytes before the first place outside of these quotes at which the word stands.
pub(crate) fn seek(quotes: Quotes, word: &[u8], z: &[u8]) -> Option<usize>
    ensures value { result ≡ spec.seek (spec.quoted quotes) word.now quoting.Outside z.now }
    ensures within { IfSome result (λ n. n + length word.now ≤ length z.now) }
{
    let mut state = Quoting::Outside;
    let mut rest = z;
    let mut at = 0;
    while let [first, more @ ..] = rest {
        if is_outside(state) && begins(word, rest) {
            return Some(at);
        }
        state = quotes.next(state, *first);
        at += 1;
        rest = more;
    }
    None
}
