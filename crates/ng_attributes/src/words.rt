//! Words at the ends of a text.

ghost use Rattle.std.specs.Prelude.{◌≡◌, ◌+◌, ◌<◌, ◌++◌, length, MatchOption, true, false};
ghost use Rattle.std.specs.Str.{IsCharBoundary};
ghost use Rattle.ng_tokens.specs.Lexis as lexis;
ghost use Rattle.ng_lex.specs.Span.{is_ascii};
ghost use Rattle.ng_lex.specs.Names.{between as inside};

use ng_tokens::{begins, same_text};

/// What stands after the word, where the text begins with it.
pub(crate) fn strip<'a>(word: &[u8], text: &'a str) -> Option<&'a str>
    requires { lexis.all is_ascii word.now ≡ true }
    ensures { MatchOption result (lexis.begins word.now text.now ≡ false) (λ r. (lexis.begins word.now text.now ≡ true) × (text.now ≡ word.now ++ r.now)) }
{
    if begins(word, text.as_bytes()) {
        Some(text.split_at(word.len()).1)
    } else {
        None
    }
}

/// What stands between the first word, with which the text begins, and the last, with which it ends.
pub(crate) fn between<'a>(first: &[u8], last: &[u8], text: &'a str) -> Option<&'a str>
    requires first { lexis.all is_ascii first.now ≡ true }
    requires last { lexis.all is_ascii last.now ≡ true }
    requires size { length first.now + length last.now < 64 }
    ensures { MatchOption result (inside first.now last.now text.now ≡ None) (λ r. inside first.now last.now text.now ≡ Some r.now) }
{
    let size = first.len() + last.len();
    if text.len() < size || !begins(first, text.as_bytes()) {
        return None;
    }
    let end = text.len() - last.len();
    if !same_text(last, &text.as_bytes()[end..]) {
        return None;
    }
    let rest = text.split_at(first.len()).1;
    Some(rest.split_at(text.len() - first.len() - last.len()).0)
}
