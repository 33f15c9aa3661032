ghost use Rattle.std.specs.Prelude.{◌≡◌, ◌+ℤ◌, IsTrue, List, ◌∷◌, codes};
ghost use Rattle.std.specs.List.{list_all};
ghost use Rattle.std.specs.Option.{option_copied};
ghost use Rattle.ng_values.specs.Add.{number};
ghost use Rattle.ng_ast.specs.declared.Expr.{out-Expr};
ghost use Rattle.ng_ast.specs.declared.Stmt.{out-Stmt};
ghost use Rattle.ng_ast.specs.declared.TNode.{out-TNode};
ghost use Rattle.ng_semantics.specs.Text.{Text};
ghost use Rattle.ng_semantics.specs.Meaning.{mean};
ghost use Rattle.ng_semantics.specs.Template.{in_order, inside};
ghost use Rattle.ng_semantics.specs.Events.{listener_in, statement as effect, statements as effects};
ghost use Rattle.ng_semantics.specs.First.{is_first_value, is_first_statement, is_first_node, are_first_nodes};
ghost use Rattle.ng_update.specs.Fields.{world_of, names_in, answer_of, fault_in};
ghost use Rattle.ng_update.specs.Printed.{is_operand};
ghost use Rattle.ng_update.specs.Clicked.{attributes_at, attributes_among, click_in};

use crate::fields::{Field, put, value_of};
use ng_ast::{AttrForm, Expr, Stmt, TAttr, TNode};
use ng_values::{Fault, NgText, Value};

// The attributes of the first element of a tag, in document order.
#[cycle(attributes)]
pub(crate) fn attributes_of<'a>(nodes: &'a [TNode], depth: u32, tag: &str) -> Option<&'a [TAttr]>
    requires { (names : List Text) × IsTrue (are_first_nodes names depth nodes.now) }
    ensures { option_copied result ≡ attributes_among tag.now (in_order depth nodes.now) }
{
    if depth == 0 {
        return None;
    }
    for node in nodes {
        if let Some(attributes) = attributes_in(node, depth - 1, tag) {
            return Some(attributes);
        }
    }
    None
}

// The same in a node and the nodes inside it.
#[tactic(auto, using(crate::proofs::Nodes::in_order_nil))]
#[cycle(attributes)]
fn attributes_in<'a>(node: &'a TNode, depth: u32, tag: &str) -> Option<&'a [TAttr]>
    requires { (names : List Text) × IsTrue (is_first_node names (are_first_nodes names depth) (out-TNode node.now)) }
    ensures { option_copied result ≡ attributes_among tag.now (node.now ∷ in_order depth (inside (out-TNode node.now))) }
{
    match node {
        TNode::Element(_, name, attributes, inner) => {
            if tag == name.as_str() {
                Some(attributes.as_slice())
            } else {
                attributes_of(inner.as_slice(), depth, tag)
            }
        }
        TNode::Text(_, _) => None,
        TNode::If(_, _) | TNode::For(_, _, _, _) => None,
        TNode::Switch(_, _, _) | TNode::Let(_, _, _) => None,
    }
}

// The statements of the first listener for clicks.
pub(crate) fn click_listener(attributes: &[TAttr]) -> Option<&[Stmt]>
    ensures { option_copied result ≡ click_in attributes.now }
{
    for attribute in attributes {
        if let Some(statements) = click_statements(attribute) {
            return Some(statements);
        }
    }
    None
}

fn click_statements(attribute: &TAttr) -> Option<&[Stmt]>
    ensures { option_copied result ≡ listener_in (codes "click") attribute.now attribute.now.form }
{
    match &attribute.form {
        AttrForm::Listener(statements) => {
            if "click" == attribute.name.as_str() {
                Some(statements.as_slice())
            } else {
                None
            }
        }
        _ => None,
    }
}

// Runs statements one after another, up to the first fault. What was written before it stays.
pub(crate) fn run(statements: &[Stmt], fields: &mut [Field]) -> Result<(), Fault>
    requires { IsTrue (list_all (λ s. is_first_statement (names_in fields.old) (out-Stmt s)) statements.now) }
    ensures values { (fault_in result, world_of fields.new) ≡ effects statements.now (world_of fields.old) }
    ensures names { names_in fields.new ≡ names_in fields.old }
{
    for statement in statements {
        run_statement(statement, fields)?;
    }
    Ok(())
}

fn run_statement(statement: &Stmt, fields: &mut [Field]) -> Result<(), Fault>
    requires { IsTrue (is_first_statement (names_in fields.old) (out-Stmt statement.now)) }
    ensures values { (fault_in result, world_of fields.new) ≡ effect (world_of fields.old) (out-Stmt statement.now) }
    ensures names { names_in fields.new ≡ names_in fields.old }
{
    match statement {
        Stmt::Set(_, name, expr) => {
            let value = evaluate(expr, fields)?;
            put(fields, name.as_str(), value);
            Ok(())
        }
        _ => Ok(()),
    }
}

fn evaluate(expr: &Expr, fields: &[Field]) -> Result<i64, Fault>
    requires { IsTrue (is_first_value (names_in fields.now) (out-Expr expr.now)) }
    ensures { mean (world_of fields.now) expr.now ≡ answer_of result }
{
    match expr {
        Expr::Binary(_, _, a, b) => add(operand(a.get(), fields)?, operand(b.get(), fields)?),
        _ => operand(expr, fields),
    }
}

fn add(a: i64, b: i64) -> Result<i64, Fault>
    ensures { number (a +ℤ b) ≡ answer_of result }
{
    a.checked_add(b).ok_or(Fault::Overflow)
}

fn operand(expr: &Expr, fields: &[Field]) -> Result<i64, Fault>
    requires { IsTrue (is_operand (names_in fields.now) (out-Expr expr.now)) }
    ensures { mean (world_of fields.now) expr.now ≡ answer_of result }
{
    match expr {
        Expr::Literal(_, Value::Int(number)) => Ok(*number),
        Expr::Name(_, name) => value_of(fields, name.as_str()).ok_or(Fault::NoMember),
        _ => unreachable!(),
    }
}
