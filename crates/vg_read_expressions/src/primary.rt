// Literals, names and parentheses.
ghost use Rattle.std.specs.Prelude.{◌≡◌, List, [], ℕ, map};
ghost use Rattle.vg_syntax.specs.Reads.{kids_of, literal, primary};
ghost use Rattle.vg_tree.specs.Held.{text_at, node_at};
ghost use Rattle.vg_tree.specs.HeldMade.{value_at};

use vg_base::{Name, Place};
use vg_syntax::Kind;
use vg_tree::Node;
use vg_tree::contents::{all_in, kind_in, text_in};
use vg_tree::made::{Made, Value};
use vg_tree::rows::unwritten;

/// The node of a literal or a name, by the kind of its token.
pub fn literal(kind: Kind, place: Place, name: Name) -> Node
    ensures { (texts : List (List ℕ)) → node_at texts result ≡ literal kind place (text_at texts name) }
{
    match kind {
        Kind::Number => Node::Number(place, name),
        Kind::CharLiteral => Node::CharLiteral(place, name),
        Kind::StringLiteral => Node::StringLiteral(place, name),
        Kind::True => Node::True(place),
        Kind::False => Node::False(place),
        Kind::Null => Node::Null(place),
        Kind::This => Node::This(place),
        _ => Node::Name(place, name),
    }
}

/// A literal or a name; or what stands in parentheses, with the place of the first one.
pub fn primary(nameless: Name, kids: &mut [Value]) -> Value
    ensures { (texts : List (List ℕ)) → text_at texts nameless ≡ [] → value_at texts result ≡ primary (kids_of (map (value_at texts) kids.old)) }
{
    match kids {
        [word] => {
            let name = text_in(nameless, &word.made);
            Value {
                place: word.place,
                made: Made::Tree(literal(kind_in(&word.made), word.place, name)),
            }
        }
        [left, inner, _] => Value {
            place: left.place,
            made: all_in(&mut inner.made),
        },
        _ => unwritten(Made::Absent),
    }
}
