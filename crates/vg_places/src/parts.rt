// What a node is made of.
ghost use Rattle.std.specs.Prelude.{◌≡◌, [], ◌∷◌, false, ◌+◌, ◌<◌, ℕ, List, IfSome, IfNone};
ghost use Rattle.std.specs.Option.{option_map};
ghost use Rattle.vg_syntax.specs.Reads.{spot};
ghost use Rattle.vg_tree.specs.Held.{node_at};
ghost use Rattle.vg_places.specs.Places.{all, spots};
ghost use Rattle.vg_places.specs.Search.{kid_spots, kid_bulk, is_row_node};
ghost use Rattle.vg_syntax.specs.Outline.{outline};
ghost use Rattle.vg_tree_walks.specs.Walks.{bulk};

use vg_base::Place;
use vg_tree::Node;

/// The place of a node, and its children in order of the text.
#[derive(Clone, Copy)]
pub(crate) struct Parts<'a> {
    pub place: Place,
    pub first: Option<&'a Node>,
    pub second: Option<&'a Node>,
    pub third: Option<&'a Node>,
    pub fourth: Option<&'a Node>,
}

/// The place of a node, and its children in order of the text. Rows and pairs have no place.
pub(crate) fn parts_of(node: &Node) -> Option<Parts<'_>>
    ensures spots { IfSome result (λ p. (texts : List (List ℕ)) → spots (node_at texts node.now)
        ≡ spot p.place ∷ all (kid_spots texts (option_map (λ kid. kid.now) p.first) ∷ kid_spots texts (option_map (λ kid. kid.now) p.second)
        ∷ kid_spots texts (option_map (λ kid. kid.now) p.third) ∷ kid_spots texts (option_map (λ kid. kid.now) p.fourth) ∷ [])) }
    ensures less { IfSome result (λ p. kid_bulk (option_map (λ kid. kid.now) p.first) + kid_bulk (option_map (λ kid. kid.now) p.second)
        + kid_bulk (option_map (λ kid. kid.now) p.third) + kid_bulk (option_map (λ kid. kid.now) p.fourth)
        < bulk (outline (node_at [] node.now))) }
    ensures none { IfNone result (is_row_node node.now ≡ false → (texts : List (List ℕ)) → spots (node_at texts node.now) ≡ []) }
{
    match node {
        Node::Text(place, a) => Some(Parts {
            place: *place,
            first: Some(a),
            second: None,
            third: None,
            fourth: None,
        }),
        Node::ClassDecl(place, _, _, a) => Some(Parts {
            place: *place,
            first: Some(a),
            second: None,
            third: None,
            fourth: None,
        }),
        Node::ComponentDecl(place, _, a) => Some(Parts {
            place: *place,
            first: Some(a),
            second: None,
            third: None,
            fourth: None,
        }),
        Node::DeviceDecl(place, _, a) => Some(Parts {
            place: *place,
            first: Some(a),
            second: None,
            third: None,
            fourth: None,
        }),
        Node::RegisterDecl(place, _, _) => Some(Parts {
            place: *place,
            first: None,
            second: None,
            third: None,
            fourth: None,
        }),
        Node::ProgramDecl(place, _, a) => Some(Parts {
            place: *place,
            first: Some(a),
            second: None,
            third: None,
            fourth: None,
        }),
        Node::EntryDecl(place, _, _, _) => Some(Parts {
            place: *place,
            first: None,
            second: None,
            third: None,
            fourth: None,
        }),
        Node::FieldDecl(place, _, _, a) => Some(Parts {
            place: *place,
            first: Some(a),
            second: None,
            third: None,
            fourth: None,
        }),
        Node::MethodDecl(place, _, _, _, a) => Some(Parts {
            place: *place,
            first: Some(a),
            second: None,
            third: None,
            fourth: None,
        }),
        Node::ConstructorDecl(place, _, _, a, b) => Some(Parts {
            place: *place,
            first: Some(a),
            second: Some(b),
            third: None,
            fourth: None,
        }),
        Node::Block(place, a) => Some(Parts {
            place: *place,
            first: Some(a),
            second: None,
            third: None,
            fourth: None,
        }),
        Node::Local(place, _, _, a) => Some(Parts {
            place: *place,
            first: Some(a),
            second: None,
            third: None,
            fourth: None,
        }),
        Node::If(place, a, b) => Some(Parts {
            place: *place,
            first: Some(a),
            second: Some(b),
            third: None,
            fourth: None,
        }),
        Node::While(place, a, b) => Some(Parts {
            place: *place,
            first: Some(a),
            second: Some(b),
            third: None,
            fourth: None,
        }),
        Node::For(place, a, b, c, d) => Some(Parts {
            place: *place,
            first: Some(a),
            second: Some(b),
            third: Some(c),
            fourth: Some(d),
        }),
        Node::Return(place, a) => Some(Parts {
            place: *place,
            first: Some(a),
            second: None,
            third: None,
            fourth: None,
        }),
        Node::Break(place) => Some(Parts {
            place: *place,
            first: None,
            second: None,
            third: None,
            fourth: None,
        }),
        Node::Continue(place) => Some(Parts {
            place: *place,
            first: None,
            second: None,
            third: None,
            fourth: None,
        }),
        Node::Assign(place, a, b) => Some(Parts {
            place: *place,
            first: Some(a),
            second: Some(b),
            third: None,
            fourth: None,
        }),
        Node::Eval(place, a) => Some(Parts {
            place: *place,
            first: Some(a),
            second: None,
            third: None,
            fourth: None,
        }),
        Node::Number(place, _) => Some(Parts {
            place: *place,
            first: None,
            second: None,
            third: None,
            fourth: None,
        }),
        Node::CharLiteral(place, _) => Some(Parts {
            place: *place,
            first: None,
            second: None,
            third: None,
            fourth: None,
        }),
        Node::StringLiteral(place, _) => Some(Parts {
            place: *place,
            first: None,
            second: None,
            third: None,
            fourth: None,
        }),
        Node::True(place) => Some(Parts {
            place: *place,
            first: None,
            second: None,
            third: None,
            fourth: None,
        }),
        Node::False(place) => Some(Parts {
            place: *place,
            first: None,
            second: None,
            third: None,
            fourth: None,
        }),
        Node::Null(place) => Some(Parts {
            place: *place,
            first: None,
            second: None,
            third: None,
            fourth: None,
        }),
        Node::This(place) => Some(Parts {
            place: *place,
            first: None,
            second: None,
            third: None,
            fourth: None,
        }),
        Node::Name(place, _) => Some(Parts {
            place: *place,
            first: None,
            second: None,
            third: None,
            fourth: None,
        }),
        Node::NewObject(place, _, a) => Some(Parts {
            place: *place,
            first: Some(a),
            second: None,
            third: None,
            fourth: None,
        }),
        Node::NewArray(place, _, a) => Some(Parts {
            place: *place,
            first: Some(a),
            second: None,
            third: None,
            fourth: None,
        }),
        Node::Unary(place, _, a) => Some(Parts {
            place: *place,
            first: Some(a),
            second: None,
            third: None,
            fourth: None,
        }),
        Node::Chain(place, a, b) => Some(Parts {
            place: *place,
            first: Some(a),
            second: Some(b),
            third: None,
            fourth: None,
        }),
        Node::Part(place, _, a) => Some(Parts {
            place: *place,
            first: Some(a),
            second: None,
            third: None,
            fourth: None,
        }),
        Node::TypePart(place, _, _) => Some(Parts {
            place: *place,
            first: None,
            second: None,
            third: None,
            fourth: None,
        }),
        Node::Postfix(place, a, b) => Some(Parts {
            place: *place,
            first: Some(a),
            second: Some(b),
            third: None,
            fourth: None,
        }),
        Node::Member(place, _) => Some(Parts {
            place: *place,
            first: None,
            second: None,
            third: None,
            fourth: None,
        }),
        Node::Index(place, a) => Some(Parts {
            place: *place,
            first: Some(a),
            second: None,
            third: None,
            fourth: None,
        }),
        Node::Call(place, a) => Some(Parts {
            place: *place,
            first: Some(a),
            second: None,
            third: None,
            fourth: None,
        }),
        Node::Nothing | Node::Row(_) | Node::Arms(_) | Node::Pair(_, _) => None,
    }
}
