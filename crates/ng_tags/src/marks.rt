//! Where the value of an attribute stands.

ghost use Rattle.std.specs.Prelude.{◌≡◌, ℕ, ◌++◌, List, true, false};
ghost use Rattle.ng_tokens.specs.Lexis as lexis;
ghost use Rattle.ng_lex.specs.Words.{at_front};
ghost use Rattle.ng_lex.specs.Attributes.{ends_bare as bare_end};
ghost use Rattle.ng_lex.specs.Span.{is_ascii};
ghost use Rattle.ng_attributes.specs.Places.{Fits};
ghost use Rattle.ng_attributes.specs.Runs.{passes};
ghost use Rattle.ng_tags.specs.Marks.{IsClosed, IsBareAt, IsMarked, IsAssigned};

use ng_ast::Place;
use ng_attributes::{At, Class, is_blank};

// White space or `>`.
fn ends_bare(z: &[u8]) -> bool
    ensures { result ≡ at_front bare_end z.now }
{
    match z {
        [first, ..] => is_blank(*first) || *first == b'>',
        [] => false,
    }
}

// What stands before the mark, and what comes after it.
fn closed<'a>(at: At<'a>, class: Class, mark: &[u8]) -> Option<(At<'a>, At<'a>)>
    requires fits { Fits at.place at.text.now }
    requires ascii { lexis.all is_ascii mark.now ≡ true }
    requires ends { (r : List ℕ) → at_front (passes class) (mark.now ++ r) ≡ false }
    ensures { IsClosed (passes class) mark.now at.entry result }
{
    let (text, rest) = at.take(class);
    let Some(rest) = rest.strip(mark) else {
        return None;
    };
    let inside = At {
        text,
        place: at.place,
    };
    Some((inside, rest))
}

fn bare(at: At) -> Option<(At, At)>
    requires { Fits at.place at.text.now }
    ensures { IsBareAt at.entry result }
{
    let (text, rest) = at.take(Class::Bare);
    if text.is_empty() {
        return None;
    }
    if !ends_bare(rest.text.as_bytes()) {
        return None;
    }
    let inside = At {
        text,
        place: at.place,
    };
    Some((inside, rest))
}

// A value in quotes or without them: what it says, and what comes after it.
#[tactic(none)]
fn marked(at: At) -> Option<(At, At)>
    requires { Fits at.place at.text.now }
    ensures { IsMarked at.entry result }
{
    if let Some(inside) = at.strip(b"\"") {
        closed(inside, Class::NotDouble, b"\"")
    } else if let Some(inside) = at.strip(b"'") {
        closed(inside, Class::NotSingle, b"'")
    } else {
        bare(at)
    }
}

/// What comes after the name of an attribute: no `=`, one with no value behind it, or a value: what it says, and what comes after it.
#[derive(Clone, Copy)]
pub(crate) enum Assigned<'a> {
    Nothing,
    Broken(Place),
    Value(At<'a>, At<'a>),
}

/// White space, `=`, white space and a value, where a `=` stands there.
#[tactic(none)]
pub(crate) fn assignment(at: At) -> Assigned
    requires { Fits at.place at.text.now }
    ensures { IsAssigned at.entry result }
{
    let (_, sign) = at.take(Class::Blank);
    let Some(behind) = sign.strip(b"=") else {
        return Assigned::Nothing;
    };
    let (_, value) = behind.take(Class::Blank);
    match marked(value) {
        Some((inside, rest)) => Assigned::Value(inside, rest),
        None => Assigned::Broken(value.place),
    }
}
