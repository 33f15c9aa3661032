//! Phrases of a grammar: what each reads, where it passes a limit, and how it is read. Definitions and laws for the contracts of the
//! crates above; nothing here runs.
#![tactic(auto)]

ghost use Rattle.std.specs.Prelude.{ℕ};
ghost use Rattle.ng_ast.specs.declared.Place.{Place};
ghost use Rattle.ng_tokens.specs.Lexis.{Text};
ghost use Rattle.ng_phrases.specs.Parser.{Exact, Agree, Takes};
ghost use Rattle.ng_phrases.specs.Phrase.{Phrase};
ghost use Rattle.ng_phrases.specs.Parse.{parse};
ghost use Rattle.ng_phrases.specs.Reading.{reads, over};
ghost use Rattle.ng_phrases.specs.Nested.{Nests, over_below, parse_below};
ghost use Rattle.ng_phrases.specs.Tokens.{ReadsGap, ReadsToken, parse_gap, parse_token};
ghost use Rattle.ng_phrases.specs.Closed.{nobody, nowhere, never, nothing};

/// A grammar: a phrase without a hole, which asks no other reader.
pub trait Grammar {
    ghost use Rattle.ng_phrases.specs.Phrase.{Phrase};
    ghost use Rattle.ng_phrases.specs.Closed.{nobody};

    ghost phrase: { Phrase nobody ⊥ Self };
}

/// A grammar that may stand in itself.
pub trait RecursiveGrammar {
    ghost use Rattle.ng_phrases.specs.Phrase.{Phrase};
    ghost use Rattle.ng_phrases.specs.Closed.{nobody};

    ghost phrase: { Phrase nobody Self Self };
}

/// The parser of a phrase and its grammar are one: what it takes is what is read and passes no limit, and it stops for a limit only
/// where a front that is begun passes one. At most one front of a text is read, and for one value.
pub fn one_phrase<G: Grammar>()
    ensures exact { Exact nobody (reads nowhere G.phrase) (over nowhere never G.phrase) (parse nothing G.phrase) }
    ensures one { Agree (reads nowhere G.phrase) (reads nowhere G.phrase) }
{}

/// The same of a phrase that stands in itself, in fewer levels than the parser may go.
pub fn one_nested<G: RecursiveGrammar>()
    ensures exact { (levels : ℕ) → Exact nobody (Nests G.phrase) (over_below G.phrase levels) (parse_below G.phrase levels) }
    ensures one { Agree (Nests G.phrase) (Nests G.phrase) }
{}

/// White space and comments, all that stand at the front of a text, and their parser are one.
pub fn one_gap()
    ensures exact { Exact nobody ReadsGap never parse_gap }
    ensures one { Agree ReadsGap ReadsGap }
{}

/// A token with all the white space and comments after it, and its parser, are one. It takes at least a byte.
pub fn one_token()
    ensures exact { Exact nobody ReadsToken never parse_token }
    ensures one { Agree ReadsToken ReadsToken }
    ensures some { Takes ReadsToken }
{}
