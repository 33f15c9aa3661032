//! The classes of bytes that words of a selector are made of.

ghost use Rattle.std.specs.Prelude.{◌≡◌};
ghost use Rattle.std.specs.List.{prefix_len};
ghost use Rattle.ng_tokens.specs.Lexis as text;
ghost use Rattle.ng_selectors.specs.Grammar as spec;
ghost use Rattle.ng_selectors.specs.Classes.{within, first};

fn is_lower(byte: u8) -> bool
    ensures { result ≡ spec.is_lower byte }
{
    97 <= byte && byte <= 122
}

fn is_digit(byte: u8) -> bool
    ensures { result ≡ text.is_digit byte }
{
    48 <= byte && byte <= 57
}

fn is_letter(byte: u8) -> bool
    ensures { result ≡ text.is_letter byte }
{
    is_lower(byte) || (65 <= byte && byte <= 90) || byte == b'_'
}

/// Whether the byte is a space, a tab, a line feed, a form feed or a carriage return.
pub fn is_blank(byte: u8) -> bool
    ensures { result ≡ text.is_blank byte }
{
    byte == b' ' || (9 <= byte && byte <= 10) || (12 <= byte && byte <= 13)
}

/// What a run of bytes is: white space, a tag, the identifier of an attribute or a class, or a name.
#[derive(Clone, Copy)]
pub enum Class {
    Blank,
    Tag,
    Identifier,
    Name,
}

impl Class {
    /// Whether the byte may stand in such a run.
    pub fn holds(self, byte: u8) -> bool
        ensures { result ≡ within self byte }
    {
        match self {
            Class::Blank => is_blank(byte),
            Class::Tag => is_lower(byte) || is_digit(byte) || byte == b'-',
            Class::Identifier => is_letter(byte) || is_digit(byte) || byte == b'-' || byte == b'%',
            Class::Name => is_letter(byte) || is_digit(byte),
        }
    }

    /// How many bytes such a run has at the front.
    pub fn run(self, bytes: &[u8]) -> usize
        ensures { result ≡ prefix_len (within self) bytes.now }
    {
        bytes.iter().take_while(|byte| self.holds(**byte)).count()
    }

    /// Whether such a run may begin with the byte.
    pub fn begins(self, byte: u8) -> bool
        ensures { result ≡ first self byte }
    {
        match self {
            Class::Tag => is_lower(byte),
            Class::Name => is_letter(byte),
            Class::Blank | Class::Identifier => self.holds(byte),
        }
    }
}
