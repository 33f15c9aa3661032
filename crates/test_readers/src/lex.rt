//! The tokens of templates, and decoded letters with their places.

use ng_ast::Place;
use ng_lex::{PlacedLetter, TokenKind, decode, tokens};
use std::test::Fail;

const BASE: Place = Place {
    line: 1,
    column: 1,
    byte: 0,
};

fn kind(kind: TokenKind) -> &'static str {
    match kind {
        TokenKind::Literal => "text",
        TokenKind::Interpolation => "value",
        TokenKind::Start => "start",
        TokenKind::End => "end",
        TokenKind::Comment => "comment",
        TokenKind::Head => "head",
        TokenKind::Close => "close",
        TokenKind::Let => "let",
    }
}

// The kinds of the tokens with their ends, as a text.
fn cut(rt: &HostRuntime, text: &str) -> Result<String, Fail> {
    let mut told = String::new(rt.alloc());
    if text.len() > 1048576 {
        return Ok(told);
    }
    if let Ok(found) = tokens(rt.alloc(), text) {
        for token in &found {
            let kind = kind(token.kind);
            told.push_str(format!(in rt.alloc(); "{kind} {} ", token.to)?.as_str())?;
        }
    }
    Ok(told)
}

#[test]
fn cuts(rt: HostRuntime) -> Result<(), Fail> {
    for (text, want) in [
        ("a { b", "text 5 "),
        ("é{{ '}}' }}.", "text 2 value 12 text 13 "),
        ("{{{a: 1}.a}}", "value 12 "),
        ("<p a='>' b=\">\" c=d>x</p >", "start 19 text 20 end 25 "),
        ("<br/><k-k a=b />", "start 5 start 16 "),
        ("<!-- a --- b -->c", "comment 16 text 17 "),
        (
            "@if(a; as b){x}@else if (b) {y} @else{z}",
            "head 13 text 14 close 15 head 29 text 30 close 31 text 32 head 38 text 39 close 40 ",
        ),
        (
            "@for (x of f(')', [1;2]); track x; let i = $index) {}@empty {}",
            "head 52 close 53 head 61 close 62 ",
        ),
        (
            "@switch (a) {@case (1) {}@default {}}",
            "head 13 head 24 close 25 head 35 close 36 close 37 ",
        ),
        ("@let a = 'b;' ;c", "let 15 text 16 "),
    ] {
        assert_eq!(rt; cut(&rt, text)?.as_str(), want, "{text}");
    }
    Ok(())
}

// The letters of a text, each with its line and column, and with _ where it is blank.
fn letters(rt: &HostRuntime, text: &str) -> Result<String, Fail> {
    let mut told = String::new(rt.alloc());
    if text.len() > 1048576 {
        return Ok(told);
    }
    let Some(found) = decode(rt.alloc(), text.as_bytes(), BASE)? else {
        return Ok(told);
    };
    for PlacedLetter { letter, place } in &found {
        let blank = if letter.blank { "_" } else { "" };
        let byte = letter.byte;
        let (line, column) = (place.line, place.column);
        told.push_str(format!(in rt.alloc(); "{byte}@{line}:{column}{blank} ")?.as_str())?;
    }
    Ok(told)
}

#[test]
fn decodes(rt: HostRuntime) -> Result<(), Fail> {
    for (text, want) in [
        (
            "a &amp;\n&#9;é&x",
            "97@1:1 32@1:2_ 38@1:3 10@1:8_ 9@2:1 195@2:5 169@2:6 38@2:6 120@2:7 ",
        ),
        (
            "&#0065;&#x1F600;&nbsp;",
            "65@1:1 240@1:8 159@1:8 152@1:8 128@1:8 194@1:17 160@1:17 ",
        ),
        ("&lt;&gt;&quot;&apos;", "60@1:1 62@1:5 34@1:9 39@1:15 "),
        (
            "&; & b;",
            "38@1:1 59@1:2 32@1:3_ 38@1:4 32@1:5_ 98@1:6 59@1:7 ",
        ),
        ("&é;", "38@1:1 195@1:2 169@1:3 59@1:3 "),
    ] {
        assert_eq!(rt; letters(&rt, text)?.as_str(), want, "{text}");
    }
    Ok(())
}
