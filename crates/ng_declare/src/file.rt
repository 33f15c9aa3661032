//! A whole file: UTF-8, with or without a byte order mark.

ghost use Rattle.std.specs.Prelude.{◌≡◌, ◌≤◌, ◌↔◌, List, ℕ, length, IsUtf8, IfOk, IfErr, Err};
ghost use Rattle.ng_ast.specs.declared.refusals.ReadError.TheVariants as error;
ghost use Rattle.ng_exprs.specs.Reading.{IsOrMemory, Refused};
ghost use Rattle.ng_declare.specs.declared.entries.Entry.{Entry as E};
ghost use Rattle.ng_declare.specs.Files.{is_marked, unmarked, first_place, ReadsFile, OverFile, NoFile, Refuses, Answers};
ghost use Rattle.ng_declare.specs.Gives.{Tells};

use crate::cursor::Cursor;
use crate::declarations::file;
use crate::entries::Entry;
use crate::halt::Halt;
use ng_ast::{Place, ReadError, Refusal, Rule};
use sqlite_items::Items;
use std::alloc::Global;

fn has_mark(bytes: &[u8]) -> bool
    ensures { result ≡ is_marked bytes.now }
{
    match bytes {
        [a, b, c, ..] => *a == 0xEF && *b == 0xBB && *c == 0xBF,
        _ => false,
    }
}

// The place of the first character, which stands at this byte.
fn first_place(byte: u32) -> Place
    ensures { result ≡ record { line = 1; column = 1; byte = byte } }
{
    Place {
        line: 1,
        column: 1,
        byte,
    }
}

fn first_cursor(alloc: Global, text: &str) -> Cursor<'_>
    requires { length text.now ≤ 1048576 }
    ensures place { result.place ≡ first_place text.now }
    ensures rest { result.rest.now ≡ unmarked text.now }
{
    if has_mark(text.as_bytes()) {
        let place = first_place(3);
        Cursor {
            alloc,
            place,
            rest: &text[3..],
        }
    } else {
        let place = first_place(0);
        Cursor {
            alloc,
            place,
            rest: text,
        }
    }
}

fn refused(alloc: Global, halt: Halt) -> ReadError
    ensures { Tells halt result }
{
    match halt {
        Halt::Syntax(place) => match Refusal::nameless(alloc, Rule::Syntax, place) {
            Ok(refusal) => ReadError::Syntax(refusal),
            Err(_) => ReadError::Memory,
        },
        Halt::Limit(place) => match Refusal::nameless(alloc, Rule::Limit, place) {
            Ok(refusal) => ReadError::Limit(refusal),
            Err(_) => ReadError::Memory,
        },
        Halt::Memory => ReadError::Memory,
        Halt::Refused(_, error) => error,
    }
}

// The declarations of a text, which ends with them.
fn read_text(alloc: Global, text: &str) -> Result<Items<Entry>, ReadError>
    requires { length text.now ≤ 1048576 }
    ensures { Answers text.now result }
{
    let mut cursor = first_cursor(alloc, text);
    let found = match file(&mut cursor) {
        Ok(found) => found,
        Err(halt) => return Err(refused(alloc, halt)),
    };
    if cursor.rest.is_empty() {
        Ok(found)
    } else {
        Err(refused(alloc, Halt::Syntax(cursor.place)))
    }
}

/// Reads a declaration file, in which templates are left as texts. Takes time linear in the bytes, and for each pair of a constant
/// record a search among the keys of that record.
///
/// `Utf8` comes exactly where the bytes are not UTF-8. Ok comes exactly where they are a file of the grammar and pass no limit.
/// `Syntax` comes only where they are no such file, `Limit` only where a front of them is a file that is begun and passes a limit: more
/// than 256 components, services, pipes or environments, more than 256 members of a declaration (the lines of an environment are
/// members), a constant that weighs more than 65,536 or nests deeper than 32, or an expression or a body that passes its own limits. The
/// place of a refusal is where the reader stopped; no clause fixes it. A byte order mark at the front is skipped, and counts as three
/// bytes and no column. The grammar is this project's own, as docs/LANGUAGE.md has it.
pub fn read_file(alloc: Global, bytes: &[u8]) -> Result<Items<Entry>, ReadError>
    requires { length bytes.now ≤ 1048576 }
    ensures utf8 { (result ≡ Err error.Utf8) ↔ (IsUtf8 bytes.now → ⊥) }
    ensures reads { IfOk result (λ es. ReadsFile bytes.now es × (OverFile bytes.now → ⊥)) }
    ensures refused { IfErr result (Refuses (IsUtf8 bytes.now) (NoFile bytes.now) (OverFile bytes.now)) }
    ensures exact { (es : List E) → ReadsFile bytes.now es → (OverFile bytes.now → ⊥) → IsOrMemory es result }
{
    match str::from_utf8(bytes) {
        Ok(text) => read_text(alloc, text),
        Err(_) => Err(ReadError::Utf8),
    }
}

/// A text is one file at most.
pub fn one_file()
    ensures { (t : List ℕ) (a b : List E) → ReadsFile t a → ReadsFile t b → a ≡ b }
{}
