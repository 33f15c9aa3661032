//! Laws of parts, with nothing to run.

ghost use Rattle.std.specs.Prelude.{◌≡◌, List, ℕ, ◌++◌};
ghost use Rattle.ng_ast.specs.declared.Place.{Place};
ghost use Rattle.ng_lex.specs.declared.markup.Markup.{Markup};
ghost use Rattle.ng_lex.specs.declared.markup.Shape.{Shape};
ghost use Rattle.ng_lex.specs.Lexis.{IsWritten};
ghost use Rattle.ng_lex.specs.Heavy.{IsHeavy};
ghost use Rattle.ng_nodes.specs.Limits.{HasShape};

/// A text is one part at most.
#[tactic(auto, using(crate::proofs::WrittenLaws::one_written))]
pub fn one_part()
    ensures { (p : Place) (a : List ℕ) (c d : Markup) → IsWritten p a c → IsWritten p a d → c ≡ d }
{}

/// Where a part stands and one that passes a limit begins, they have the same shape.
#[tactic(auto, using(crate::proofs::PartLaws::heavy_shape))]
pub fn heavy_parts_have_their_shape()
    ensures { (p : Place) (a z : List ℕ) (shape : Shape) (c : Markup) → IsWritten p a c → IsHeavy p (a ++ z) shape → HasShape shape c }
{}
