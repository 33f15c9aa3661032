//! The end of the head of a block.

ghost use Rattle.std.specs.Prelude.{◌≡◌, ◌-◌, ◌≤◌, length, take, reverse, MatchOption, IfSome};
ghost use Rattle.std.specs.List.{prefix_len};
ghost use Rattle.std.specs.Str.{IsCharBoundary};
ghost use Rattle.ng_tokens.specs.Lexis as lexis;
ghost use Rattle.ng_heads.specs.Closes.{NotClosed, ClosedAt};

use crate::at::is_blank;

// The bytes of white space at the end.
fn blank_end(z: &[u8]) -> usize
    ensures value { result ≡ prefix_len lexis.is_blank (reverse z.now) }
    ensures within { result ≤ length z.now }
{
    z.iter().rev().take_while(|b| is_blank(**b)).count()
}

// What stands before so many bytes.
fn front(text: &str, len: usize) -> &str
    requires { IsCharBoundary text.now len }
    ensures { result.now ≡ take len text.now }
{
    &text[..len]
}

/// The bytes up to the last `)`, with it, where only white space and a `{` come after it.
pub(crate) fn closed_len(text: &str) -> Option<usize>
    ensures found { MatchOption result (NotClosed text.now) (ClosedAt text.now) }
    ensures boundary { IfSome result (IsCharBoundary text.now) }
{
    let inside = text.strip_suffix('{')?;
    let blank = blank_end(inside.as_bytes());
    let len = inside.len() - blank;
    let kept = front(inside, len);
    if kept.ends_with(')') { Some(len) } else { None }
}
