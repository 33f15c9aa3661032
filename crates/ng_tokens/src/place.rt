//! The place after some bytes.

ghost use Rattle.std.specs.Prelude.{◌≡◌, ◌+◌, ◌^◌, ◌<◌, ◌≤◌, length};
ghost use Rattle.ng_tokens.specs.Lexis as text;

use ng_ast::Place;

fn step(place: Place, b: u8) -> Place
    requires { (place.line < 2 ^ 31) × (place.column < 2 ^ 31) × (place.byte < 2 ^ 31) }
    ensures { result ≡ text.step place b }
{
    let byte = place.byte + 1;
    if b == b'\n' {
        Place {
            line: place.line + 1,
            column: 1,
            byte,
        }
    } else if 128 <= b && b <= 191 {
        Place { byte, ..place }
    } else {
        Place {
            line: place.line,
            column: place.column + 1,
            byte,
        }
    }
}

/// The place after the bytes `z`, which begin at `place`: a line feed begins a line, and a column is a character.
pub fn steps(mut place: Place, z: &[u8]) -> Place
    requires { (place.line + length z.now < 2 ^ 31) × (place.column + length z.now < 2 ^ 31) × (place.byte + length z.now < 2 ^ 31) }
    ensures value { result ≡ text.steps place z.now }
    ensures bounds { (result.line ≤ place.line + length z.now) × (result.column ≤ place.column + length z.now) × (result.byte ≤ place.byte + length z.now) }
{
    for b in z {
        place = step(place, *b);
    }
    place
}
