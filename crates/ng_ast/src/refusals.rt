//! Why a text isn't read.

ghost use Rattle.std.specs.Prelude.{◌≡◌, [], IfOk};

use crate::Place;
use ng_values::NgText;
use std::alloc::{AllocError, AllocFailed, Global};

/// What a refused text breaks: its grammar, a limit, or a rule of applications by its number.
#[derive(Clone, Copy, Debug, PartialEq, Eq)]
pub enum Rule {
    Syntax,
    Limit,
    N01,
    N02,
    N03,
    N04,
    N05,
    N06,
    N07,
    N08,
    N09,
    N10,
    N11,
    N12,
    N13,
    N14,
    N15,
    N16,
    N17,
    N18,
    N19,
    N20,
    N21,
    N22,
    N23,
    N24,
    N25,
    N26,
    N27,
    N28,
    N29,
    N30,
}

/// What is broken, where, and by which name; with `Syntax` and `Limit` the name is empty.
#[derive(Debug, Drop)]
pub struct Refusal {
    pub rule: Rule,
    pub place: Place,
    pub name: NgText,
}

impl Refusal {
    /// The refusal by `rule` at `place` that names nothing. The error is want of memory.
    pub fn nameless(alloc: Global, rule: Rule, place: Place) -> Result<Refusal, AllocError>
        ensures { IfOk result (λ f. (f.rule ≡ rule) × (f.place ≡ place) × (f.name ≡ [])) }
    {
        let name = NgText::new(alloc, "")?;
        Ok(Refusal { rule, place, name })
    }
}

/// Why a text isn't read: its bytes aren't UTF-8, it has no reading, it passes a limit, or memory is wanting.
#[derive(Debug, Drop)]
pub enum ReadError {
    Utf8,
    Syntax(Refusal),
    Limit(Refusal),
    Memory,
}

impl From<AllocError> for ReadError {
    ghost use Rattle.ng_ast.specs.declared.refusals.ReadError.TheVariants.{Memory};

    ghost from_gives = { λ _ e. e ≡ Memory };

    fn from(_: AllocError) -> Self {
        ReadError::Memory
    }
}

impl<T: Drop> From<AllocFailed<T>> for ReadError {
    ghost use Rattle.ng_ast.specs.declared.refusals.ReadError.TheVariants.{Memory};

    ghost from_gives = { λ _ e. e ≡ Memory };

    fn from(_: AllocFailed<T>) -> Self {
        ReadError::Memory
    }
}
