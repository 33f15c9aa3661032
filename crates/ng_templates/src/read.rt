//! Reads a whole template.

ghost use Rattle.std.specs.Prelude.{◌≡◌, ℕ, ◌≤◌, List, length, IfOk, IfErr};
ghost use Rattle.ng_ast.specs.declared.Place.{Place};
ghost use Rattle.ng_ast.specs.declared.Template.{Template};
ghost use Rattle.ng_exprs.specs.Reading.{Refused, IsOrMemory};
ghost use Rattle.ng_templates.specs.Reading.{IsBase, ReadsTemplate, NoTemplate, OverTemplate, Tells};

use crate::nodes::read_nodes;
use ng_ast::{Place, ReadError, Refusal, Rule, Template};
use ng_nodes::Halt;
use std::alloc::Global;

fn refused(alloc: Global, halt: Halt) -> ReadError
    ensures { Tells halt result }
{
    match halt {
        Halt::Syntax(place) => match Refusal::nameless(alloc, Rule::Syntax, place) {
            Ok(refusal) => ReadError::Syntax(refusal),
            Err(_) => ReadError::Memory,
        },
        Halt::Limit(place) => match Refusal::nameless(alloc, Rule::Limit, place) {
            Ok(refusal) => ReadError::Limit(refusal),
            Err(_) => ReadError::Memory,
        },
        Halt::Memory => ReadError::Memory,
    }
}

/// Reads a template. `base` is the place of the text's first byte, from which places are counted. Takes time linear in the length of
/// the text.
///
/// `Syntax` comes only where the text has no reading, `Limit` only where a front of it is a template that is begun, and has more
/// than 32 elements and blocks in one another, more than 4,096 nodes, or an expression that passes a limit. The place of a refusal
/// is where the reader stopped; no clause fixes it. The grammar is that of Angular's templates, as docs/LANGUAGE.md has it.
pub fn read_template(alloc: Global, text: &str, base: Place) -> Result<Template, ReadError>
    requires size { length text.now ≤ 1048576 }
    requires near { IsBase base }
    ensures reads { IfOk result (λ t. ReadsTemplate base text.now t × (OverTemplate base text.now → ⊥)) }
    ensures refused { IfErr result (Refused (NoTemplate base text.now) (OverTemplate base text.now)) }
    ensures exact { (t : Template) → ReadsTemplate base text.now t → (OverTemplate base text.now → ⊥) → IsOrMemory t result }
{
    match read_nodes(alloc, text, base) {
        Ok(nodes) => Ok(Template { place: base, nodes }),
        Err(halt) => Err(refused(alloc, halt)),
    }
}

/// A text is one template at most.
pub fn one_template()
    ensures { (base : Place) (t : List ℕ) (a b : Template) → ReadsTemplate base t a → ReadsTemplate base t b → a ≡ b }
{}
