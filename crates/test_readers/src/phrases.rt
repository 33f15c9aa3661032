//! Grammars of the kinds that the laws are about.

use ng_phrases::{Grammar, RecursiveGrammar, one_nested, one_phrase};
use ng_values::NgText;

#[derive(Drop)]
struct Name {
    text: NgText,
}

// A name.
impl Grammar for Name {
    ghost use Rattle.ng_phrases.specs.Phrase as p;
    ghost use Rattle.ng_phrases.specs.Phrase.{◌>>=◌};
    ghost use Rattle.ng_phrases.specs.Words.{name};

    ghost phrase = { name >>= λ text. p.Phrase.pure (record { text = text }) };
}

// A name in any number of brackets.
impl RecursiveGrammar for Name {
    ghost use Rattle.ng_tokens.specs.declared.kinds.Sign.TheVariants as s;
    ghost use Rattle.ng_phrases.specs.Phrase as p;
    ghost use Rattle.ng_phrases.specs.Phrase.{◌>>=◌, ◌>>◌};
    ghost use Rattle.ng_phrases.specs.Words.{sees_sign, sign, name, choose};

    ghost phrase = { choose (sees_sign s.OpenRound) (sign s.OpenRound >> p.Phrase.hole >>= λ inner. sign s.CloseRound >> p.Phrase.pure inner) (name >>= λ text. p.Phrase.pure (record { text = text })) };
}

#[test]
fn laws_of_grammars() {
    one_phrase::<Name>();
    one_nested::<Name>();
}
