//! Clicks that set fields.

ghost use Rattle.std.specs.Prelude.{◌≡◌, ◌&&◌, nat_le, length};
ghost use Rattle.std.specs.List.{list_all};
ghost use Rattle.ng_ast.specs.declared.Expr.{out-Expr};
ghost use Rattle.ng_ast.specs.declared.Stmt.{out-Stmt};
ghost use Rattle.ng_semantics.specs.First as spec;
ghost use Rattle.ng_semantics.specs.First.{names_of};

use ng_ast::{AttrForm, Binary, Expr, Member, Stmt, TAttr};
use ng_values::Value;

// At most so many statements at a click.
const MAX_STATEMENTS: usize = 64;

fn has_member(members: &[Member], name: &str) -> bool
    ensures { result ≡ spec.has_name name.now (names_of members.now) }
{
    for member in members {
        if member.name.as_str() == name {
            return true;
        }
    }
    false
}

/// Whether an expression is the name of a member.
pub(crate) fn is_field(members: &[Member], expr: &Expr) -> bool
    ensures { result ≡ spec.is_field (names_of members.now) (out-Expr expr.now) }
{
    match expr {
        Expr::Name(_, name) => has_member(members, name.as_str()),
        _ => false,
    }
}

fn is_number(expr: &Expr) -> bool
    ensures { result ≡ spec.is_number (out-Expr expr.now) }
{
    match expr {
        Expr::Literal(_, Value::Int(number)) => *number >= 0,
        _ => false,
    }
}

fn is_first_value(members: &[Member], expr: &Expr) -> bool
    ensures { result ≡ spec.is_first_value (names_of members.now) (out-Expr expr.now) }
{
    match expr {
        Expr::Binary(_, Binary::Add, left, right) => is_field(members, left.get())
            && is_number(right.get()),
        _ => is_field(members, expr) || is_number(expr),
    }
}

fn is_first_statement(members: &[Member], statement: &Stmt) -> bool
    ensures { result ≡ spec.is_first_statement (names_of members.now) (out-Stmt statement.now) }
{
    match statement {
        Stmt::Set(_, name, value) => {
            has_member(members, name.as_str()) && is_first_value(members, value)
        }
        _ => false,
    }
}

fn are_first_statements(members: &[Member], statements: &[Stmt]) -> bool
    ensures { result ≡ list_all (λ s. spec.is_first_statement (names_of members.now) (out-Stmt s)) statements.now }
{
    for statement in statements {
        if !is_first_statement(members, statement) {
            return false;
        }
    }
    true
}

fn is_short(statements: &[Stmt]) -> bool
    ensures { result ≡ (nat_le 1 (length statements.now) && nat_le (length statements.now) 64) }
{
    !statements.is_empty() && statements.len() <= MAX_STATEMENTS
}

/// Whether an attribute is a click that sets fields.
pub(crate) fn is_click(members: &[Member], attribute: &TAttr) -> bool
    ensures { result ≡ spec.is_click (names_of members.now) attribute.now attribute.now.form }
{
    match &attribute.form {
        AttrForm::Listener(statements) => {
            attribute.name.as_str() == "click"
                && is_short(statements.as_slice())
                && are_first_statements(members, statements.as_slice())
        }
        _ => false,
    }
}
