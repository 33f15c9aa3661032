//! The forms of a template that aren't built.

ghost use Rattle.std.specs.Prelude.{◌≡◌, map, nat_le};
ghost use Rattle.std.specs.List.{flat_map};
ghost use Rattle.ng_ast.specs.declared.TNode.{out-TNode};
ghost use Rattle.ng_ast.specs.Inner.{optional_nodes};
ghost use Rattle.ng_ast.specs.Nodes.{all_nodes, branch_nodes, node_and_inner};
ghost use Rattle.ng_semantics.specs.First as first;
ghost use Rattle.ng_semantics.specs.First.{names_of};
ghost use Rattle.ng_unbuilt.specs.Least.{least_of};
ghost use Rattle.ng_unbuilt.specs.Forms as spec;

use crate::least::{earlier, offer};
use crate::listener::{is_click, is_field};
use crate::tags::is_element_tag;
use ng_ast::{Branch, Member, Piece, Place, TAttr, TNode};

// How long a text may become, in bytes.
const MAX_TEXT: usize = 65535;

// How long the text of a whole number may be, in bytes.
const MAX_NUMBER: usize = 20;

fn all_places(attributes: &[TAttr], mut best: Option<Place>) -> Option<Place>
    ensures { result ≡ least_of best (map (λ a. a.place) attributes.now) }
{
    for attribute in attributes {
        best = earlier(best, attribute.place);
    }
    best
}

#[tactic(auto, using(crate::specs::LeastLaws::least_laws))]
fn attributes(members: &[Member], attributes: &[TAttr], best: Option<Place>) -> Option<Place>
    ensures { result ≡ least_of best (spec.attribute_forms (names_of members.now) attributes.now) }
{
    match attributes {
        [] => best,
        [first, more @ ..] => {
            let best = offer(!is_click(members, first), first.place, best);
            all_places(more, best)
        }
    }
}

fn piece(members: &[Member], piece: &Piece, best: Option<Place>) -> Option<Place>
    ensures { result ≡ least_of best (spec.piece_forms (names_of members.now) piece.now) }
{
    match piece {
        Piece::Text(_) => best,
        Piece::Value(place, value) => offer(!is_field(members, value), *place, best),
    }
}

fn pieces(members: &[Member], pieces: &[Piece], mut best: Option<Place>) -> Option<Place>
    ensures { result ≡ least_of best (flat_map (spec.piece_forms (names_of members.now)) pieces.now) }
{
    for one in pieces {
        best = piece(members, one, best);
    }
    best
}

fn is_literal(pieces: &[Piece]) -> bool
    ensures { result ≡ first.is_literal pieces.now }
{
    match pieces {
        [Piece::Text(_)] => true,
        _ => false,
    }
}

fn piece_bytes(piece: &Piece) -> usize
    ensures { result ≡ first.piece_bytes piece.now }
{
    match piece {
        Piece::Text(text) => text.as_str().len(),
        Piece::Value(_, _) => MAX_NUMBER,
    }
}

#[tactic(auto, using(crate::proofs::Loops::short_more, crate::proofs::Loops::long, crate::proofs::Loops::short_end))]
fn fits(pieces: &[Piece]) -> bool
    ensures { result ≡ nat_le (first.bytes_in pieces.now) 65535 }
{
    let mut total = 0;
    for one in pieces {
        let bytes = piece_bytes(one);
        if bytes > MAX_TEXT - total {
            return false;
        }
        total += bytes;
    }
    true
}

fn is_long(pieces: &[Piece]) -> bool
    ensures { result ≡ spec.is_long pieces.now }
{
    !(is_literal(pieces) || fits(pieces))
}

#[tactic(auto, using(crate::specs::LeastLaws::least_laws))]
fn this_node(members: &[Member], node: &TNode, best: Option<Place>) -> Option<Place>
    ensures { result ≡ least_of best (spec.node_forms (names_of members.now) (out-TNode node.now)) }
{
    match node {
        TNode::Element(place, tag, attrs, _) => {
            let best = offer(!is_element_tag(tag.as_str()), *place, best);
            attributes(members, attrs.as_slice(), best)
        }
        TNode::Text(place, parts) => {
            let best = offer(is_long(parts.as_slice()), *place, best);
            pieces(members, parts.as_slice(), best)
        }
        TNode::If(place, _) => earlier(best, *place),
        TNode::For(place, _, _, _) => earlier(best, *place),
        TNode::Switch(place, _, _) => earlier(best, *place),
        TNode::Let(place, _, _) => earlier(best, *place),
    }
}

#[cycle(nodes)]
fn node(members: &[Member], node: &TNode, best: Option<Place>) -> Option<Place>
    ensures { result ≡ least_of best (flat_map (λ t. spec.node_forms (names_of members.now) (out-TNode t)) (node_and_inner node.now)) }
{
    let best = this_node(members, node, best);
    match node {
        TNode::Element(_, _, _, inner) => nodes(members, inner.as_slice(), best),
        TNode::Text(_, _) => best,
        TNode::If(_, inner) => branches(members, inner.as_slice(), best),
        TNode::For(_, _, inner, empty) => {
            let best = nodes(members, inner.as_slice(), best);
            empty_nodes(members, empty, best)
        }
        TNode::Switch(_, _, inner) => branches(members, inner.as_slice(), best),
        TNode::Let(_, _, _) => best,
    }
}

/// The first form of the nodes, and of all nodes inside them.
#[cycle(nodes)]
pub(crate) fn nodes(members: &[Member], nodes: &[TNode], mut best: Option<Place>) -> Option<Place>
    ensures { result ≡ least_of best (spec.template_forms (names_of members.now) nodes.now) }
{
    for one in nodes {
        best = node(members, one, best);
    }
    best
}

#[cycle(nodes)]
fn branches(members: &[Member], branches: &[Branch], mut best: Option<Place>) -> Option<Place>
    ensures { result ≡ least_of best (flat_map (λ t. spec.node_forms (names_of members.now) (out-TNode t)) (flat_map branch_nodes branches.now)) }
{
    for branch in branches {
        best = nodes(members, branch.nodes.as_slice(), best);
    }
    best
}

#[cycle(nodes)]
fn empty_nodes(members: &[Member], empty: &Option<Branch>, best: Option<Place>) -> Option<Place>
    ensures { result ≡ least_of best (spec.template_forms (names_of members.now) (optional_nodes empty.now)) }
{
    match empty {
        None => best,
        Some(branch) => nodes(members, branch.nodes.as_slice(), best),
    }
}
