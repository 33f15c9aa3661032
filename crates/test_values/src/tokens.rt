//! The tokens of a text, with their places.

use ng_ast::Place;
use ng_tokens::scan;

const BASE: Place = Place {
    line: 1,
    column: 1,
    byte: 0,
};

// How many tokens the text has, and the place of the last one; nothing where it is refused.
fn scanned(rt: &HostRuntime, text: &str) -> Option<(usize, Option<Place>)> {
    if text.len() > 1000 {
        return None;
    }
    match scan(rt.alloc(), true, text, BASE) {
        Ok(tokens) => Some((tokens.len(), tokens.last().map(|token| token.place))),
        Err(_) => None,
    }
}

#[test]
fn tokens_are_counted(rt: HostRuntime) {
    for (text, want) in [
        ("", Some(0)),
        ("a===b!==c==d!=e<=f>=g", Some(13)),
        ("||&&???.<>+-*/%!.,;?:|=#()[]{}", Some(26)),
        ("$index $count $first $last $even $odd $event", Some(7)),
        ("9223372036854775807 0", Some(2)),
        ("9223372036854775808", None),
        ("07", None),
        ("$of", None),
        ("'\\\\\\'\\\"\\n\\t\n\"' \"'\"", Some(2)),
        ("'\\r'", None),
        ("'a", None),
        ("a // b\nc /* * / */ d // e", Some(3)),
        ("a /*/", None),
        ("a & b", None),
        ("é", None),
    ] {
        let number = scanned(&rt, text).map(|(number, _)| number);
        assert_eq!(rt; number, want, "{text}");
    }
}

#[test]
fn tokens_have_places(rt: HostRuntime) {
    let second_line = Place {
        line: 2,
        column: 5,
        byte: 15,
    };
    let after_blanks = Place {
        line: 1,
        column: 8,
        byte: 8,
    };
    for (text, number, place) in [
        ("'é' /* é\n */ 'é'", 2, second_line),
        ("'é'\t\r\x0c +", 2, after_blanks),
    ] {
        assert_eq!(rt; scanned(&rt, text), Some((number, Some(place))), "{text}");
    }
}
