// What parts of declarations make of their kids. The text of the name `nameless` is to be empty.
ghost use Rattle.std.specs.Prelude.{◌≡◌, List, [], ◌∷◌, ℕ, map, IfOk};
ghost use Rattle.std.specs.Option.{option_map};
ghost use Rattle.vg_syntax.specs.Tree.{ClassDecl, FieldDecl, MethodDecl, ConstructorDecl};
ghost use Rattle.vg_syntax.specs.Made.{Params, row_in, params_in, is_row, node_in, type_in};
ghost use Rattle.vg_syntax.specs.Reads.{kids_of, value, spot, whole, declared, declaration, extended, register, entry, handler, field_or_constructor, member};
ghost use Rattle.vg_syntax.specs.Reads.{super_call, parameters, more_parameters, typed};
ghost use Rattle.vg_tree.specs.Held.{text_at, param_at, node_at};
ghost use Rattle.vg_tree.specs.HeldMade.{made_at, value_at};

use std::alloc::Global;
use vg_base::{Name, NoMemory, Place};
use vg_syntax::Kind;
use vg_tree::contents::{
    above_in, all_in, component_in, is_row, kind_in, method_in, node_in, param_in, params_in,
    row_in, text_in, type_in,
};
use vg_tree::made::{Made, Value};
use vg_tree::rows::{row_of, unwritten, with_front};
use vg_tree::{Node, Param};

/// A text: its first declaration, and the row behind it.
pub fn whole(alloc: Global, kids: &mut [Value]) -> Result<Value, NoMemory>
    ensures { (texts : List (List ℕ)) → IfOk result (λ v. value_at texts v ≡ whole (kids_of (map (value_at texts) kids.old))) }
{
    match kids {
        [first, rest] => {
            let declarations = with_front(row_in(alloc, &mut rest.made), node_in(&mut first.made))?;
            let row = Box::new(alloc, row_of(declarations))?;
            Ok(Value {
                place: first.place,
                made: Made::Tree(Node::Text(first.place, row)),
            })
        }
        _ => Ok(unwritten(Made::Absent)),
    }
}

/// A component, a device or a program.
pub fn declared(
    alloc: Global,
    kind: Kind,
    place: Place,
    name: Name,
    body: Node,
) -> Result<Node, NoMemory>
    ensures { (texts : List (List ℕ)) → IfOk result (λ n. node_at texts n ≡ declared kind place (text_at texts name) (node_at texts body)) }
{
    let body = Box::new(alloc, body)?;
    match kind {
        Kind::Component => Ok(Node::ComponentDecl(place, name, body)),
        Kind::Device => Ok(Node::DeviceDecl(place, name, body)),
        _ => Ok(Node::ProgramDecl(place, name, body)),
    }
}

/// A class: its name, the name of the class above, and its members.
pub fn class(
    alloc: Global,
    place: Place,
    name: Name,
    above: Option<Name>,
    members: &mut Made,
) -> Result<Node, NoMemory>
    ensures { (texts : List (List ℕ)) → IfOk result (λ n. node_at texts n
        ≡ ClassDecl (spot place) (text_at texts name) (option_map (text_at texts) above) (row_in (made_at texts members.old))) }
{
    let members = Box::new(alloc, row_of(row_in(alloc, members)))?;
    Ok(Node::ClassDecl(place, name, above, members))
}

/// A declaration at the top.
pub fn declaration(alloc: Global, nameless: Name, kids: &mut [Value]) -> Result<Value, NoMemory>
    ensures { (texts : List (List ℕ)) → text_at texts nameless ≡ []
        → IfOk result (λ v. value_at texts v ≡ declaration (kids_of (map (value_at texts) kids.old))) }
{
    match kids {
        [word, name, above, body] => {
            let above = above_in(&above.made);
            let name = text_in(nameless, &name.made);
            let class_node = class(alloc, word.place, name, above, &mut body.made)?;
            Ok(Value {
                place: word.place,
                made: Made::Tree(class_node),
            })
        }
        [word, name, body] => {
            let kind = kind_in(&word.made);
            let called = text_in(nameless, &name.made);
            let node = declared(
                alloc,
                kind,
                word.place,
                called,
                row_of(row_in(alloc, &mut body.made)),
            )?;
            Ok(Value {
                place: word.place,
                made: Made::Tree(node),
            })
        }
        _ => Ok(unwritten(Made::Absent)),
    }
}

/// The class above a class, behind its word.
pub fn extended(kids: &mut [Value]) -> Value
    ensures { (texts : List (List ℕ)) → value_at texts result ≡ extended (kids_of (map (value_at texts) kids.old)) }
{
    match kids {
        [word, name] => Value {
            place: word.place,
            made: all_in(&mut name.made),
        },
        _ => unwritten(Made::Absent),
    }
}

/// A register of a device.
pub fn register(nameless: Name, kids: &mut [Value]) -> Value
    ensures { (texts : List (List ℕ)) → text_at texts nameless ≡ [] → value_at texts result ≡ register (kids_of (map (value_at texts) kids.old)) }
{
    match kids {
        [word, name, _, number, _] => {
            let name = text_in(nameless, &name.made);
            let number = text_in(nameless, &number.made);
            Value {
                place: word.place,
                made: Made::Tree(Node::RegisterDecl(word.place, name, number)),
            }
        }
        _ => unwritten(Made::Absent),
    }
}

/// An entry of a program.
pub fn entry(nameless: Name, kids: &mut [Value]) -> Value
    ensures { (texts : List (List ℕ)) → text_at texts nameless ≡ [] → value_at texts result ≡ entry (kids_of (map (value_at texts) kids.old)) }
{
    match kids {
        [word, key, _, handler, _] => {
            let key = text_in(nameless, &key.made);
            let component = component_in(nameless, &handler.made);
            let method = method_in(nameless, &handler.made);
            Value {
                place: word.place,
                made: Made::Tree(Node::EntryDecl(word.place, key, component, method)),
            }
        }
        _ => unwritten(Made::Absent),
    }
}

/// The component and the method that an entry names.
pub fn handler(nameless: Name, kids: &mut [Value]) -> Value
    ensures { (texts : List (List ℕ)) → text_at texts nameless ≡ [] → value_at texts result ≡ handler (kids_of (map (value_at texts) kids.old)) }
{
    match kids {
        [component, _, method] => {
            let place = component.place;
            let component = text_in(nameless, &component.made);
            let method = text_in(nameless, &method.made);
            Value {
                place,
                made: Made::Pair(component, method),
            }
        }
        _ => unwritten(Made::Absent),
    }
}

/// The parameters of a row, in order of the text.
pub fn params_of(alloc: Global, made: &mut Made) -> Vec<Param>
    ensures { (texts : List (List ℕ)) → map (param_at texts) result.items ≡ params_in (made_at texts made.old) }
{
    let mut params = params_in(alloc, made);
    params.reverse();
    params
}

/// A field: its name and type, and its first value.
pub fn field(alloc: Global, place: Place, typed: Param, initial: Node) -> Result<Node, NoMemory>
    ensures { (texts : List (List ℕ)) → IfOk result (λ n. node_at texts n
        ≡ FieldDecl (spot place) (param_at texts typed).name (param_at texts typed).type (node_at texts initial)) }
{
    let Param { name, type_ } = typed;
    let initial = Box::new(alloc, initial)?;
    Ok(Node::FieldDecl(place, name, type_, initial))
}

/// A constructor: its parameters, the arguments for the constructor of the class above, and its block.
pub fn constructor(
    alloc: Global,
    place: Place,
    params: &mut Made,
    above: &mut Made,
    block: &mut Made,
) -> Result<Node, NoMemory>
    ensures { (texts : List (List ℕ)) → IfOk result (λ n. node_at texts n
        ≡ ConstructorDecl (spot place) (params_in (made_at texts params.old)) (is_row (made_at texts above.old)) (row_in (made_at texts above.old))
        (node_in (made_at texts block.old))) }
{
    let calls_super = is_row(above);
    let params = params_of(alloc, params);
    let arguments = Box::new(alloc, row_of(row_in(alloc, above)))?;
    let block = Box::new(alloc, node_in(block))?;
    Ok(Node::ConstructorDecl(place, params, calls_super, arguments, block))
}

/// A method: its name, its parameters, its result and its block.
pub fn method(
    alloc: Global,
    place: Place,
    name: Name,
    params: &mut Made,
    returned: &mut Made,
    block: &mut Made,
) -> Result<Node, NoMemory>
    ensures { (texts : List (List ℕ)) → IfOk result (λ n. node_at texts n
        ≡ MethodDecl (spot place) (text_at texts name) (params_in (made_at texts params.old)) (type_in (made_at texts returned.old))
        (node_in (made_at texts block.old))) }
{
    let params = params_of(alloc, params);
    let block = Box::new(alloc, node_in(block))?;
    Ok(Node::MethodDecl(place, name, params, type_in(returned), block))
}

/// A field or a constructor, by its first word.
pub fn field_or_constructor(
    alloc: Global,
    nameless: Name,
    kind: Kind,
    place: Place,
    second: &mut Made,
    third: &mut Made,
    fourth: &mut Made,
) -> Result<Node, NoMemory>
    ensures { (texts : List (List ℕ)) → text_at texts nameless ≡ []
        → IfOk result (λ n. node_at texts n ≡ field_or_constructor kind place (made_at texts second.old) (made_at texts third.old) (made_at texts fourth.old)) }
{
    match kind {
        Kind::Field => field(alloc, place, param_in(nameless, second), node_in(third)),
        _ => constructor(alloc, place, second, third, fourth),
    }
}

/// A member of a class or a component.
pub fn member(alloc: Global, nameless: Name, kids: &mut [Value]) -> Result<Value, NoMemory>
    ensures { (texts : List (List ℕ)) → text_at texts nameless ≡ [] → IfOk result (λ v. value_at texts v ≡ member (kids_of (map (value_at texts) kids.old))) }
{
    match kids {
        [word, second, third, fourth] => {
            let kind = kind_in(&word.made);
            let other = field_or_constructor(
                alloc,
                nameless,
                kind,
                word.place,
                &mut second.made,
                &mut third.made,
                &mut fourth.made,
            )?;
            Ok(Value {
                place: word.place,
                made: Made::Tree(other),
            })
        }
        [word, name, params, returned, block] => {
            let name = text_in(nameless, &name.made);
            let node = method(
                alloc,
                word.place,
                name,
                &mut params.made,
                &mut returned.made,
                &mut block.made,
            )?;
            Ok(Value {
                place: word.place,
                made: Made::Tree(node),
            })
        }
        _ => Ok(unwritten(Made::Absent)),
    }
}

/// The arguments for the constructor of the class above.
pub fn super_call(kids: &mut [Value]) -> Value
    ensures { (texts : List (List ℕ)) → value_at texts result ≡ super_call (kids_of (map (value_at texts) kids.old)) }
{
    match kids {
        [colon, _, arguments] => Value {
            place: colon.place,
            made: all_in(&mut arguments.made),
        },
        _ => unwritten(Made::Absent),
    }
}

/// A parameter before what a row behind it holds.
pub fn param_before(
    alloc: Global,
    place: Place,
    first: Param,
    rest: &mut Made,
) -> Result<Value, NoMemory>
    ensures { (texts : List (List ℕ)) → IfOk result (λ v. value_at texts v ≡ value place (Params (param_at texts first ∷ params_in (made_at texts rest.old)))) }
{
    let mut params = params_in(alloc, rest);
    params.push(first)?;
    Ok(Value {
        place,
        made: Made::Params(params),
    })
}

/// A first parameter, and a row behind it.
pub fn parameters(alloc: Global, nameless: Name, kids: &mut [Value]) -> Result<Value, NoMemory>
    ensures { (texts : List (List ℕ)) → text_at texts nameless ≡ []
        → IfOk result (λ v. value_at texts v ≡ parameters (kids_of (map (value_at texts) kids.old))) }
{
    match kids {
        [first, rest] => param_before(
            alloc,
            first.place,
            param_in(nameless, &mut first.made),
            &mut rest.made,
        ),
        _ => Ok(unwritten(Made::Params(Vec::new(alloc)))),
    }
}

/// A parameter behind a comma, and a row behind it.
pub fn more_parameters(alloc: Global, nameless: Name, kids: &mut [Value]) -> Result<Value, NoMemory>
    ensures { (texts : List (List ℕ)) → text_at texts nameless ≡ []
        → IfOk result (λ v. value_at texts v ≡ more_parameters (kids_of (map (value_at texts) kids.old))) }
{
    match kids {
        [comma, first, rest] => param_before(
            alloc,
            comma.place,
            param_in(nameless, &mut first.made),
            &mut rest.made,
        ),
        _ => Ok(unwritten(Made::Params(Vec::new(alloc)))),
    }
}

/// A name and its type.
pub fn typed(nameless: Name, kids: &mut [Value]) -> Value
    ensures { (texts : List (List ℕ)) → text_at texts nameless ≡ [] → value_at texts result ≡ typed (kids_of (map (value_at texts) kids.old)) }
{
    match kids {
        [name, _, inner] => {
            let place = name.place;
            let name = text_in(nameless, &name.made);
            Value {
                place,
                made: Made::Typed(Param {
                    name,
                    type_: type_in(&mut inner.made),
                }),
            }
        }
        _ => unwritten(Made::Absent),
    }
}
