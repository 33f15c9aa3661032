//! The pieces of texts.

ghost use Rattle.std.specs.Prelude.{◌≡◌, [], ◌∷◌, ◌||◌, false, IfOk, Some, None, if◌then◌else◌};
ghost use Rattle.std.specs.Str.{is_utf8};
ghost use Rattle.ng_nodes.specs.Texts as spec;
ghost use Rattle.ng_nodes.specs.Machine.{is_gap as gap_of, is_after_literal as after_of, joined as joined_of};

use crate::state::Run;
use ng_ast::{Piece, Place};
use ng_lex::Letter;
use ng_values::NgText;
use sqlite_items::Items;
use std::alloc::{AllocError, Global};

#[tactic(auto, using(crate::proofs::Loops::all_blank_more, crate::proofs::Loops::all_blank_end))]
pub fn all_blank(letters: &[Letter]) -> bool
    ensures { result ≡ spec.all_blank letters.now }
{
    for letter in letters {
        if !letter.blank {
            return false;
        }
    }
    true
}

#[tactic(auto, using(crate::proofs::Loops::kept_more, crate::proofs::Loops::kept_end))]
fn kept(alloc: Global, letters: &[Letter]) -> Result<Vec<u8>, AllocError>
    ensures { IfOk result (λ found. found.items ≡ spec.kept letters.now) }
{
    let mut found = Vec::with_capacity(alloc, letters.len())?;
    for letter in letters {
        found.push(letter.byte)?;
    }
    Ok(found)
}

#[tactic(auto, using(crate::proofs::Loops::collapsed_more, crate::proofs::Loops::collapsed_end))]
fn collapsed(alloc: Global, letters: &[Letter]) -> Result<Vec<u8>, AllocError>
    ensures { IfOk result (λ found. found.items ≡ spec.collapsed false letters.now) }
{
    let mut found = Vec::new(alloc);
    let mut after = false;
    for letter in letters {
        if !letter.blank {
            found.push(letter.byte)?;
        } else if !after {
            found.push(b' ')?;
        }
        after = letter.blank;
    }
    Ok(found)
}

fn text_of(alloc: Global, keep: bool, letters: &[Letter]) -> Result<Vec<u8>, AllocError>
    ensures { IfOk result (λ found. found.items ≡ spec.text_of keep letters.now) }
{
    if keep {
        kept(alloc, letters)
    } else {
        collapsed(alloc, letters)
    }
}

/// The text of these bytes, where they are UTF-8.
fn decoded(alloc: Global, bytes: Vec<u8>) -> Result<Option<NgText>, AllocError>
    ensures { IfOk result (λ o. o ≡ (if is_utf8 bytes.items then Some bytes.items else None)) }
{
    match String::from_utf8(bytes) {
        Ok(text) => Ok(Some(NgText::from_string(alloc, text)?)),
        Err(_) => Ok(None),
    }
}

/// The text of literal letters, where they are a piece of a text.
#[tactic(auto, unfolding(crate::specs::Texts::is_piece))]
pub fn piece(alloc: Global, keep: bool, letters: &[Letter]) -> Result<Option<NgText>, AllocError>
    ensures { IfOk result (λ o. o ≡ (if spec.is_piece keep letters.now then Some (spec.text_of keep letters.now) else None)) }
{
    match letters {
        [] => Ok(None),
        _ => decoded(alloc, text_of(alloc, keep, letters)?),
    }
}

// Whether white space is kept in elements of this tag: `pre` and `textarea`.
#[tactic(auto, unfolding(crate::specs::Texts::keeps))]
fn keeps(tag: &str) -> bool
    ensures { result ≡ spec.keeps tag.now }
{
    tag == "pre" || tag == "textarea"
}

/// Whether white space is kept in an element of this tag, which stands where it is kept or where it isn't.
pub fn keeps_in(keep: bool, tag: &str) -> bool
    ensures { result ≡ (keep || spec.keeps tag.now) }
{
    keep || keeps(tag)
}

/// Whether no text is begun, or one that is white space alone.
pub fn is_gap(run: &Option<Run>) -> bool
    ensures { result ≡ gap_of run.now }
{
    match run {
        Some(run) => run.blank,
        None => true,
    }
}

/// Whether the last piece of the text is literal text.
pub fn is_after_literal(run: &Option<Run>) -> bool
    ensures { result ≡ after_of run.now }
{
    match run {
        Some(run) => run.literal,
        None => false,
    }
}

/// The text with one more piece, which is literal text or isn't, and white space alone or isn't.
pub fn joined(
    alloc: Global,
    run: Option<Run>,
    place: Place,
    piece: Piece,
    literal: bool,
    blank: bool,
) -> Result<Run, AllocError>
    ensures { IfOk result (λ r. r ≡ joined_of run place piece literal blank) }
{
    match run {
        None => Ok(Run {
            place,
            pieces: alone(alloc, piece)?,
            literal,
            blank,
        }),
        Some(
            Run {
                place: start,
                mut pieces,
                literal: _,
                blank: before,
            },
        ) => {
            pieces.push(piece)?;
            Ok(Run {
                place: start,
                pieces,
                literal,
                blank: before && blank,
            })
        }
    }
}

// One piece alone.
fn alone(alloc: Global, piece: Piece) -> Result<Items<Piece>, AllocError>
    ensures { IfOk result (λ pieces. pieces ≡ piece ∷ []) }
{
    let mut pieces = Items::new(alloc);
    pieces.push(piece)?;
    Ok(pieces)
}
