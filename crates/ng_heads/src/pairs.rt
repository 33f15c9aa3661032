//! Names for the variables of a row.

ghost use Rattle.std.specs.Prelude.{◌≡◌, ◌||◌, [], ◌∷◌, true, MatchOption};
ghost use Rattle.ng_tokens.specs.Lexis as lexis;
ghost use Rattle.ng_lex.specs.Words.{Spaced, IsOneName};
ghost use Rattle.ng_lex.specs.Heads.{row_variables, IsPair, ReadsPairs, IsLetPart};
ghost use Rattle.ng_heads.specs.Fors.{Adds, AddsPair, AtLet, NoLet, AnswersLet};

use crate::at::At;
use crate::halt::Stop;
use ng_tokens::same_text;
use ng_values::NgText;
use sqlite_items::Items;
use std::alloc::Global;

// The name that the whole text is, with white space round it or without.
fn one_name(at: At) -> Option<&str>
    ensures { MatchOption result ((n : lexis.Text) → IsOneName at.entry.text.now n → ⊥) (λ n. IsOneName at.entry.text.now n.now) }
{
    let front = at.blank();
    let (name, rest) = front.name()?;
    let end = rest.blank();
    if end.is(b"") { Some(name.text) } else { None }
}

#[tactic(auto, unfolding(ng_lex::specs::Heads::row_variables))]
fn is_row_variable(z: &[u8]) -> bool
    ensures { result ≡ lexis.is_one_of row_variables z.now }
{
    same_text(b"$index", z)
        || same_text(b"$count", z)
        || same_text(b"$first", z)
        || same_text(b"$last", z)
        || same_text(b"$even", z)
        || same_text(b"$odd", z)
}

// The variable of a row that the whole text is, with white space round it or without.
fn variable(at: At) -> Option<&str>
    ensures { MatchOption result ((v : lexis.Text) → Spaced at.entry.text.now v → lexis.is_one_of row_variables v ≡ true → ⊥) (λ v. Spaced at.entry.text.now v.now × (lexis.is_one_of row_variables v.now ≡ true)) }
{
    let front = at.blank();
    let (word, rest) = front.dark();
    let end = rest.blank();
    if !is_row_variable(word.text.as_bytes()) {
        return None;
    }
    if end.is(b"") { Some(word.text) } else { None }
}

// A name and a variable, with `=` between.
fn pair(at: At) -> Option<(&str, &str)>
    ensures { MatchOption result ((n v : lexis.Text) → IsPair at.entry.text.now n v → ⊥) (λ q. IsPair at.entry.text.now q.0.now q.1.now) }
{
    let (left, rest) = at.until(b'=');
    let right = rest.word(b"=")?;
    let name = one_name(left)?;
    let variable = variable(right)?;
    Some((name, variable))
}

// Adds a name with its variable, which the whole text is.
fn add_pair(alloc: Global, at: At, vars: &mut Items<(NgText, NgText)>) -> Result<(), Stop>
    ensures { AddsPair at.entry.text.now vars.old vars.new result }
{
    let Some((name, variable)) = pair(at) else {
        return Err(Stop::Syntax(at.place));
    };
    let left = NgText::new(alloc, name)?;
    let right = NgText::new(alloc, variable)?;
    vars.push((left, right))?;
    Ok(())
}

// Adds the names with their variables that the whole text is, with `,` between.
fn add_pairs(alloc: Global, at: At, vars: &mut Items<(NgText, NgText)>) -> Result<(), Stop>
    ensures { Adds (ReadsPairs at.entry.text.now) vars.old vars.new result }
{
    let mut left = at;
    'pairs: loop {
        let (here, rest) = left.until(b',');
        match add_pair(alloc, here, vars) {
            Ok(()) => {}
            Err(stop) => return Err(stop),
        }
        match rest.word(b",") {
            Some(next) => left = next,
            None => return Ok(()),
        }
    }
}

// What stands after `let`, where white space does.
fn after_let(at: At) -> Option<At>
    ensures { MatchOption result (NoLet at.entry.text.now) (AtLet at.entry) }
{
    let front = at.blank();
    let rest = front.word(b"let")?;
    if rest.is_blank() { Some(rest) } else { None }
}

// Adds the names with their variables of a part with `let`, which the whole text is.
fn add_part(alloc: Global, at: At, vars: &mut Items<(NgText, NgText)>) -> Result<(), Stop>
    ensures { Adds (IsLetPart at.entry.text.now) vars.old vars.new result }
{
    match after_let(at) {
        Some(rest) => add_pairs(alloc, rest, vars),
        None => Err(Stop::Syntax(at.place)),
    }
}

// Whether a `;` stands here, or the `)` at the end.
fn at_stop(at: At) -> bool
    ensures { result ≡ (lexis.same_text (41 ∷ []) at.entry.text.now || lexis.begins (59 ∷ []) at.entry.text.now) }
{
    at.is(b")") || at.begins(b";")
}

/// A part of the head of a `@for` with `let`, with the `;` before it: adds its names with their variables, and gives what is
/// left, which begins with a `;` or is the `)` at the end.
pub(crate) fn let_part<'a>(
    alloc: Global,
    at: At<'a>,
    vars: &mut Items<(NgText, NgText)>,
) -> Result<At<'a>, Stop>
    ensures { AnswersLet at.entry vars.old vars.new result }
{
    let Some(part) = at.word(b";") else {
        return Err(Stop::Syntax(at.place));
    };
    let (here, rest) = part.piece();
    if !at_stop(rest) {
        return Err(Stop::Syntax(rest.place));
    }
    match add_part(alloc, here, vars) {
        Ok(()) => Ok(rest),
        Err(stop) => Err(stop),
    }
}
