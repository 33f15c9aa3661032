//! A text that is still to be read.

ghost use Rattle.std.specs.Prelude.{◌≡◌, ◌++◌, ◌^◌, ◌<◌, length, MatchOption, true, false};
ghost use Rattle.ng_tokens.specs.Lexis as lexis;
ghost use Rattle.ng_lex.specs.Span.{is_ascii};
ghost use Rattle.ng_attributes.specs.Places.{Fits};
ghost use Rattle.ng_attributes.specs.Runs.{passes, Run};

use crate::classes::Class;
use crate::words::strip;
use ng_ast::Place;
use ng_tokens::steps;

/// What is still to be read of a text, and the place of its first byte.
#[derive(Clone, Copy)]
pub struct At<'a> {
    pub text: &'a str,
    pub place: Place,
}

impl<'a> At<'a> {
    /// The run of these bytes at the front, as long as can be, and what comes after it.
    pub fn take(self, class: Class) -> (&'a str, At<'a>)
        requires { Fits self.place self.text.now }
        ensures run { Run (passes class) self.entry.text.now result.0.now result.1.text.now }
        ensures place { result.1.place ≡ lexis.steps self.entry.place result.0.now }
        ensures fits { Fits result.1.place result.1.text.now }
    {
        let (run, text) = class.split(self.text);
        let place = steps(self.place, run.as_bytes());
        (run, At { text, place })
    }

    /// What comes after the word, where the text begins with it.
    pub fn strip(self, word: &[u8]) -> Option<At<'a>>
        requires fits { Fits self.place self.text.now }
        requires ascii { lexis.all is_ascii word.now ≡ true }
        ensures { MatchOption result (lexis.begins word.now self.entry.text.now ≡ false) (λ r. (self.entry.text.now ≡ word.now ++ r.text.now) × (r.place ≡ lexis.steps self.entry.place word.now) × Fits r.place r.text.now) }
    {
        let text = strip(word, self.text)?;
        let place = steps(self.place, word);
        Some(At { text, place })
    }
}
