ghost use Rattle.std.specs.Prelude.{◌≡◌, ◌++◌, [], IsTrue, OnOk};
ghost use Rattle.std.specs.List.{list_all};
ghost use Rattle.ng_ast.specs.declared.TNode.{out-TNode};
ghost use Rattle.ng_semantics.specs.Text.{look};
ghost use Rattle.ng_semantics.specs.Meaning.{named};
ghost use Rattle.ng_semantics.specs.Tree.{answer_text, pieces_text};
ghost use Rattle.ng_semantics.specs.Html.{escaped, escaped_byte, start_tag, end_tag};
ghost use Rattle.ng_semantics.specs.First.{is_first_piece, is_first_node, are_first_nodes};
ghost use Rattle.ng_update.specs.Fields.{world_of, names_in};
ghost use Rattle.ng_update.specs.Printed.{node_printed, printed, piece_printed};

use crate::fields::{Field, value_of};
use itoa::Buffer;
use ng_ast::{Expr, Piece, TNode};
use std::alloc::AllocError;

#[cycle(page)]
pub(crate) fn write_nodes(
    out: &mut Vec<u8>,
    depth: u32,
    nodes: &[TNode],
    fields: &[Field],
) -> Result<(), AllocError>
    requires { IsTrue (are_first_nodes (names_in fields.now) depth nodes.now) }
    ensures { OnOk result (out.new.items ≡ out.old.items ++ printed depth (world_of fields.now) nodes.now) }
{
    if depth == 0 {
        return Ok(());
    }
    for node in nodes {
        write_node(out, depth - 1, node, fields)?;
    }
    Ok(())
}

#[cycle(page)]
fn write_node(
    out: &mut Vec<u8>,
    depth: u32,
    node: &TNode,
    fields: &[Field],
) -> Result<(), AllocError>
    requires { IsTrue (is_first_node (names_in fields.now) (are_first_nodes (names_in fields.now) depth) (out-TNode node.now)) }
    ensures { OnOk result (out.new.items ≡ out.old.items ++ node_printed (printed depth (world_of fields.now)) (world_of fields.now) (out-TNode node.now)) }
{
    match node {
        TNode::Element(_, tag, _, inner) => {
            write_start(out, tag.as_str())?;
            write_nodes(out, depth, inner.as_slice(), fields)?;
            write_end(out, tag.as_str())
        }
        TNode::Text(_, pieces) => write_pieces(out, pieces.as_slice(), fields),
        _ => Ok(()),
    }
}

// The start tag of an element without attributes.
pub(crate) fn write_start(out: &mut Vec<u8>, tag: &str) -> Result<(), AllocError>
    ensures { OnOk result (out.new.items ≡ out.old.items ++ start_tag tag.now []) }
{
    out.push(b'<')?;
    out.extend_from_slice(tag.as_bytes())?;
    out.push(b'>')?;
    Ok(())
}

// The end tag of an element.
pub(crate) fn write_end(out: &mut Vec<u8>, tag: &str) -> Result<(), AllocError>
    ensures { OnOk result (out.new.items ≡ out.old.items ++ end_tag tag.now) }
{
    out.extend_from_slice(b"</")?;
    out.extend_from_slice(tag.as_bytes())?;
    out.push(b'>')?;
    Ok(())
}

fn write_pieces(out: &mut Vec<u8>, pieces: &[Piece], fields: &[Field]) -> Result<(), AllocError>
    requires { IsTrue (list_all (is_first_piece (names_in fields.now)) pieces.now) }
    ensures { OnOk result (out.new.items ≡ out.old.items ++ escaped (pieces_text (world_of fields.now) pieces.now)) }
{
    for piece in pieces {
        write_piece(out, piece, fields)?;
    }
    Ok(())
}

fn write_piece(out: &mut Vec<u8>, piece: &Piece, fields: &[Field]) -> Result<(), AllocError>
    requires { IsTrue (is_first_piece (names_in fields.now) piece.now) }
    ensures { OnOk result (out.new.items ≡ out.old.items ++ piece_printed (world_of fields.now) piece.now) }
{
    match piece {
        Piece::Text(text) => write_escaped(out, text.as_str().as_bytes()),
        Piece::Value(_, Expr::Name(_, name)) => write_field(out, name.as_str(), fields),
        _ => unreachable!(),
    }
}

// The digits of a field.
#[tactic(auto, using(ng_values::specs::TextLaws::texts))]
fn write_field(out: &mut Vec<u8>, name: &str, fields: &[Field]) -> Result<(), AllocError>
    ensures { OnOk result (out.new.items ≡ out.old.items ++ escaped (answer_text (named (look name.now (world_of fields.now))))) }
{
    match value_of(fields, name) {
        Some(value) => write_escaped(out, Buffer::new().format(value).as_bytes()),
        None => Ok(()),
    }
}

fn write_escaped(out: &mut Vec<u8>, text: &[u8]) -> Result<(), AllocError>
    ensures { OnOk result (out.new.items ≡ out.old.items ++ escaped text.now) }
{
    for byte in text {
        write_escaped_byte(out, *byte)?;
    }
    Ok(())
}

fn write_escaped_byte(out: &mut Vec<u8>, byte: u8) -> Result<(), AllocError>
    ensures { OnOk result (out.new.items ≡ out.old.items ++ escaped_byte byte) }
{
    match byte {
        b'&' => out.extend_from_slice(b"&amp;"),
        b'<' => out.extend_from_slice(b"&lt;"),
        b'>' => out.extend_from_slice(b"&gt;"),
        _ => Ok(out.push(byte)?),
    }
}
