//! Expressions, listeners and bodies: shapes of trees, white space, and where an expression ends.

use ng_ast::{Binary, Expr, Place, Stmt};
use ng_exprs::{end_of, read_body, read_expr, read_listener};
use sqlite_items::{Boxed, Items};
use std::test::Fail;

const BASE: Place = Place {
    line: 1,
    column: 1,
    byte: 0,
};

fn read(rt: &HostRuntime, text: &str) -> Option<Expr> {
    if text.len() > 1048576 {
        return None;
    }
    read_expr(rt.alloc(), text, BASE, false).ok()
}

// The operator of an expression, with those of its left and its right side.
fn operators(found: &Expr) -> Option<(Binary, Option<Binary>, Option<Binary>)> {
    match found {
        Expr::Binary(_, op, left, right) => Some((*op, operator(left), operator(right))),
        _ => None,
    }
}

fn operator(side: &Boxed<Expr>) -> Option<Binary> {
    match side.get() {
        Expr::Binary(_, op, _, _) => Some(*op),
        _ => None,
    }
}

#[test]
fn operators_are_grouped(rt: HostRuntime) {
    for (text, op, left, right) in [
        ("a + b * c", Binary::Add, None, Some(Binary::Mul)),
        ("a - b + c", Binary::Add, Some(Binary::Sub), None),
        ("a || b && c", Binary::Or, None, Some(Binary::And)),
        ("a && b ?? c", Binary::And, None, Some(Binary::OrNull)),
        ("a ?? b === c", Binary::OrNull, None, Some(Binary::Same)),
        ("a == b < c", Binary::Eq, None, Some(Binary::Lt)),
        ("a >= b - c", Binary::Ge, None, Some(Binary::Sub)),
        ("(a - b) % -c", Binary::Rem, None, None),
    ] {
        let found = match read(&rt, text) {
            Some(found) => operators(&found),
            None => None,
        };
        assert_eq!(rt; found, Some((op, left, right)), "{text}");
    }
}

#[test]
fn white_space(rt: HostRuntime) {
    assert!(rt; read(&rt, " a\t+\r\n\x0cb ").is_some());
    assert!(rt; read(&rt, "a\u{a0}").is_none());
}

// The places of an expression and of its right side, a name, as they are where the text begins at the base.
fn sum(rt: &HostRuntime, text: &str, base: Place) -> Option<(Place, Place)> {
    if text.len() > 1048576 || base.line > 99 || base.column > 99 || base.byte > 99 {
        return None;
    }
    let Ok(Expr::Binary(place, Binary::Add, _, right)) = read_expr(rt.alloc(), text, base, false)
    else {
        return None;
    };
    match right.get() {
        Expr::Name(at, _) => Some((place, *at)),
        _ => None,
    }
}

#[test]
fn places(rt: HostRuntime) {
    let at = |line, column, byte| Place { line, column, byte };
    let base = at(3, 7, 10);
    assert_eq!(rt; sum(&rt, "'é' +\n  b", base), Some((base, at(4, 3, 19))));
    assert_eq!(rt; sum(&rt, "'é' +b", base), Some((base, at(3, 12, 16))));
}

#[test]
fn ends(rt: HostRuntime) {
    for (text, end) in [
        ("f(a; b) ? '1)' : [c]) x", Some(20)),
        ("f(a, b) ? '1)' : [c]) x", Some(20)),
        ("f(a)) b", Some(4)),
        ("a | p : 1; track", Some(9)),
        ("a", None),
    ] {
        assert_eq!(rt; end_of(text), end, "{text}");
    }
}

#[test]
fn listeners(rt: HostRuntime) -> Result<(), Fail> {
    let listener = read_listener(rt.alloc(), "a = 1; f(b, [c]); x?.m();", BASE)?;
    assert_eq!(rt; listener.len(), 3);
    Ok(())
}

// The places of an `if` and of the statements at the front of its blocks.
fn branches(rt: &HostRuntime, text: &str) -> Option<(Place, Option<Place>, Option<Place>)> {
    if text.len() > 1048576 {
        return None;
    }
    let found = read_body(rt.alloc(), text, BASE).ok()?;
    match found.get(0)? {
        Stmt::If(place, _, taken, otherwise) => {
            Some((*place, first_place(taken), first_place(otherwise)))
        }
        _ => None,
    }
}

fn first_place(stmts: &Items<Stmt>) -> Option<Place> {
    match stmts.get(0)? {
        Stmt::Set(place, _, _) | Stmt::Do(place, _, _) => Some(*place),
        Stmt::Send(place, _, _, _) | Stmt::If(place, _, _, _) => Some(*place),
    }
}

#[test]
fn body_places(rt: HostRuntime) {
    let at = |line, column, byte| Place { line, column, byte };
    assert_eq!(rt;
        branches(&rt, "/* é */ if ('é') {\n  a.b(); } else { c = 1; }"),
        Some((at(1, 9, 9), Some(at(2, 3, 23)), Some(at(2, 19, 39))))
    );
    assert_eq!(rt;
        branches(&rt, "if (a) { if (b) { } else { c(); } }"),
        Some((at(1, 1, 0), Some(at(1, 10, 9)), None))
    );
}
