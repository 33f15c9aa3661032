//! Classes of bytes, and runs of bytes of one class.

ghost use Rattle.std.specs.Prelude.{◌≡◌, ◌≤◌, length};
ghost use Rattle.std.specs.List.{prefix_len};
ghost use Rattle.ng_tokens.specs.Lexis.{is_blank as blank, is_digit as digit, is_letter as letter, is_word as word, all as each};
ghost use Rattle.ng_lex.specs.Attributes.{is_lower as lower};
ghost use Rattle.ng_lex.specs.Letters.{is_alphanumeric as alphanumeric};
ghost use Rattle.ng_lex.specs.Words.{is_name as name, at_front};
ghost use Rattle.ng_lex.specs.Names.{is_part as part};
ghost use Rattle.ng_attributes.specs.Runs.{passes, Run};

/// A class of bytes: white space, those of tags, of names, of parts of names after a dot, of the names of attributes, of bare values,
/// and all but one of the quotes.
#[derive(Clone, Copy, Debug)]
pub enum Class {
    Blank,
    Tag,
    Word,
    Part,
    Attribute,
    Bare,
    NotDouble,
    NotSingle,
}

/// White space: space, tab, line feed, form feed, carriage return.
pub fn is_blank(b: u8) -> bool
    ensures { result ≡ blank b }
{
    b == b' ' || (9 <= b && b <= 10) || (12 <= b && b <= 13)
}

fn is_digit(b: u8) -> bool
    ensures { result ≡ digit b }
{
    48 <= b && b <= 57
}

fn is_lower(b: u8) -> bool
    ensures { result ≡ lower b }
{
    97 <= b && b <= 122
}

fn is_letter(b: u8) -> bool
    ensures { result ≡ letter b }
{
    (97 <= b && b <= 122) || (65 <= b && b <= 90) || b == b'_'
}

fn is_alphanumeric(b: u8) -> bool
    ensures { result ≡ alphanumeric b }
{
    (97 <= b && b <= 122) || (65 <= b && b <= 90) || is_digit(b)
}

impl Class {
    fn holds(self, b: u8) -> bool
        ensures { result ≡ passes self b }
    {
        match self {
            Class::Blank => is_blank(b),
            Class::Tag => is_lower(b) || is_digit(b) || b == b'-',
            Class::Word => is_letter(b) || is_digit(b),
            Class::Part => is_alphanumeric(b) || b == b'-' || b == b'_' || b == b'%',
            Class::Attribute => {
                !(is_blank(b)
                    || b == b'"'
                    || b == b'\''
                    || b == b'<'
                    || b == b'>'
                    || b == b'/'
                    || b == b'='
                    || b == b'`')
            }
            Class::Bare => {
                !(is_blank(b)
                    || b == b'"'
                    || b == b'\''
                    || b == b'<'
                    || b == b'>'
                    || b == b'='
                    || b == b'`')
            }
            Class::NotDouble => b != b'"',
            Class::NotSingle => b != b'\'',
        }
    }

    fn run_len(self, z: &[u8]) -> usize
        ensures value { result ≡ prefix_len (passes self) z.now }
        ensures within { result ≤ length z.now }
    {
        z.iter().take_while(|b| self.holds(**b)).count()
    }

    fn holds_each(self, z: &[u8]) -> bool
        ensures { result ≡ each (passes self) z.now }
    {
        for b in z {
            if !self.holds(*b) {
                return false;
            }
        }
        true
    }

    /// The run of these bytes at the front, as long as can be, and what comes after it.
    pub fn split(self, text: &str) -> (&str, &str)
        ensures { Run (passes self) text.now result.0.now result.1.now }
    {
        text.split_at(self.run_len(text.as_bytes()))
    }
}

/// Whether the bytes are a name: a letter or `_`, and then letters, digits and `_`.
pub(crate) fn is_name(z: &[u8]) -> bool
    ensures { result ≡ name z.now }
{
    match z {
        [first, rest @ ..] => is_letter(*first) && Class::Word.holds_each(rest),
        [] => false,
    }
}

/// Whether the bytes are a part of a name after a dot.
pub(crate) fn is_part(z: &[u8]) -> bool
    ensures { result ≡ part z.now }
{
    !z.is_empty() && Class::Part.holds_each(z)
}

/// Whether a lower-case letter stands at the front.
pub fn starts_lower(z: &[u8]) -> bool
    ensures { result ≡ at_front lower z.now }
{
    match z {
        [first, ..] => is_lower(*first),
        [] => false,
    }
}
