// What parts of statements make of their kids. The text of the name `nameless` is to be empty.
ghost use Rattle.std.specs.Prelude.{◌≡◌, List, [], ℕ, IfOk, map};
ghost use Rattle.vg_syntax.specs.Tree.{Arm, If, For, Local};
ghost use Rattle.vg_syntax.specs.Made.{node_in, arms_in, otherwise_in, first_in, condition_in, next_in};
ghost use Rattle.vg_syntax.specs.Reads.{kids_of, spot, block, jump, statement_of_two, statement_of_three, statement_of_four, statement, else_part, else_arm};
ghost use Rattle.vg_syntax.specs.Reads.{header, assigned, simple};
ghost use Rattle.vg_tree.specs.Held.{text_at, param_at, node_at};
ghost use Rattle.vg_tree.specs.HeldMade.{made_at, value_at};

use std::alloc::Global;
use vg_base::{Name, NoMemory, Place};
use vg_syntax::Kind;
use vg_tree::arms::{row_of_arms, with_arm};
use vg_tree::contents::{all_in, arms_in, fields_in, kind_in, node_in, param_in, row_in, taken};
use vg_tree::made::{Made, Value};
use vg_tree::nothing::is_nothing;
use vg_tree::rows::{row_of, unwritten};
use vg_tree::{Node, Param};

/// Statements in braces.
pub fn block(alloc: Global, kids: &mut [Value]) -> Result<Value, NoMemory>
    ensures { (texts : List (List ℕ)) → IfOk result (λ v. value_at texts v ≡ block (kids_of (map (value_at texts) kids.old))) }
{
    match kids {
        [left, statements, _] => {
            let statements = Box::new(alloc, row_of(row_in(alloc, &mut statements.made)))?;
            Ok(Value {
                place: left.place,
                made: Made::Tree(Node::Block(left.place, statements)),
            })
        }
        _ => Ok(unwritten(Made::Absent)),
    }
}

/// A `break` or a `continue`.
pub fn jump(kind: Kind, place: Place) -> Node
    ensures { (texts : List (List ℕ)) → node_at texts result ≡ jump kind place }
{
    match kind {
        Kind::Break => Node::Break(place),
        _ => Node::Continue(place),
    }
}

/// A `break` or a `continue`, or a simple statement.
pub fn statement_of_two(place: Place, made: &mut Made) -> Made
    ensures { (texts : List (List ℕ)) → made_at texts result ≡ statement_of_two place (made_at texts made.old) }
{
    match made {
        Made::Word(kind, _) => Made::Tree(jump(*kind, place)),
        other => all_in(other),
    }
}

/// A `for` by what its parentheses hold, and its block.
pub fn for_of(
    alloc: Global,
    place: Place,
    header: &mut Made,
    body: &mut Made,
) -> Result<Node, NoMemory>
    ensures { (texts : List (List ℕ)) → IfOk result (λ n. node_at texts n
        ≡ For (spot place) (first_in (made_at texts header.old)) (condition_in (made_at texts header.old)) (next_in (made_at texts header.old))
        (node_in (made_at texts body.old))) }
{
    let (first, condition, next) = fields_in(header);
    let first = Box::new(alloc, first)?;
    let condition = Box::new(alloc, condition)?;
    let next = Box::new(alloc, next)?;
    let body = Box::new(alloc, node_in(body))?;
    Ok(Node::For(place, first, condition, next, body))
}

/// A `while`, a `return` or a `for`, by its first word.
pub fn statement_of_three(
    alloc: Global,
    kind: Kind,
    place: Place,
    second: &mut Made,
    third: &mut Made,
) -> Result<Node, NoMemory>
    ensures { (texts : List (List ℕ)) → IfOk result (λ n. node_at texts n
        ≡ statement_of_three kind place (made_at texts second.old) (made_at texts third.old)) }
{
    match kind {
        Kind::While => {
            let condition = Box::new(alloc, node_in(second))?;
            let body = Box::new(alloc, node_in(third))?;
            Ok(Node::While(place, condition, body))
        }
        Kind::Return => {
            let given = Box::new(alloc, node_in(second))?;
            Ok(Node::Return(place, given))
        }
        _ => for_of(alloc, place, second, third),
    }
}

/// An `if` by its condition, its block, and what stands behind it.
pub fn if_of(
    alloc: Global,
    place: Place,
    condition: &mut Made,
    body: &mut Made,
    rest: &mut Made,
) -> Result<Node, NoMemory>
    ensures { (texts : List (List ℕ)) → IfOk result (λ n. node_at texts n
        ≡ If (spot place) (Arm (node_in (made_at texts condition.old)) (node_in (made_at texts body.old)) (arms_in (made_at texts rest.old)))
        (otherwise_in (made_at texts rest.old))) }
{
    let (further, otherwise) = arms_in(alloc, rest);
    let condition = node_in(condition);
    let block = node_in(body);
    let arms = with_arm(alloc, further, condition, block)?;
    let row = Box::new(alloc, row_of_arms(arms))?;
    let last = Box::new(alloc, otherwise)?;
    Ok(Node::If(place, row, last))
}

/// A local: its name and type, and its first value.
pub fn local(alloc: Global, place: Place, typed: Param, initial: Node) -> Result<Node, NoMemory>
    ensures { (texts : List (List ℕ)) → IfOk result (λ n. node_at texts n
        ≡ Local (spot place) (param_at texts typed).name (param_at texts typed).type (node_at texts initial)) }
{
    let Param { name, type_ } = typed;
    let initial = Box::new(alloc, initial)?;
    Ok(Node::Local(place, name, type_, initial))
}

/// An `if` or a local, by its first word.
pub fn statement_of_four(
    alloc: Global,
    nameless: Name,
    kind: Kind,
    place: Place,
    second: &mut Made,
    third: &mut Made,
    fourth: &mut Made,
) -> Result<Node, NoMemory>
    ensures { (texts : List (List ℕ)) → text_at texts nameless ≡ []
        → IfOk result (λ n. node_at texts n ≡ statement_of_four kind place (made_at texts second.old) (made_at texts third.old) (made_at texts fourth.old)) }
{
    match kind {
        Kind::If => if_of(alloc, place, second, third, fourth),
        _ => local(alloc, place, param_in(nameless, second), node_in(third)),
    }
}

/// A statement.
pub fn statement(alloc: Global, nameless: Name, kids: &mut [Value]) -> Result<Value, NoMemory>
    ensures { (texts : List (List ℕ)) → text_at texts nameless ≡ []
        → IfOk result (λ v. value_at texts v ≡ statement (kids_of (map (value_at texts) kids.old))) }
{
    match kids {
        [only] => Ok(taken(only)),
        [first, _] => Ok(Value {
            place: first.place,
            made: statement_of_two(first.place, &mut first.made),
        }),
        [first, second, third] => {
            let kind = kind_in(&first.made);
            let node = statement_of_three(
                alloc,
                kind,
                first.place,
                &mut second.made,
                &mut third.made,
            )?;
            Ok(Value {
                place: first.place,
                made: Made::Tree(node),
            })
        }
        [first, second, third, fourth] => {
            let word = kind_in(&first.made);
            let longer = statement_of_four(
                alloc,
                nameless,
                word,
                first.place,
                &mut second.made,
                &mut third.made,
                &mut fourth.made,
            )?;
            Ok(Value {
                place: first.place,
                made: Made::Tree(longer),
            })
        }
        _ => Ok(unwritten(Made::Absent)),
    }
}

/// What stands behind the block of an `if`: further pairs and the last block, or neither.
pub fn else_part(alloc: Global, kids: &mut [Value]) -> Value
    ensures { (texts : List (List ℕ)) → value_at texts result ≡ else_part (kids_of (map (value_at texts) kids.old)) }
{
    match kids {
        [word, arm] => Value {
            place: word.place,
            made: all_in(&mut arm.made),
        },
        _ => unwritten(Made::Arms(Vec::new(alloc), Node::Nothing)),
    }
}

/// What stands behind an `else`: the last block, or one more pair.
pub fn else_arm(alloc: Global, kids: &mut [Value]) -> Result<Value, NoMemory>
    ensures { (texts : List (List ℕ)) → IfOk result (λ v. value_at texts v ≡ else_arm (kids_of (map (value_at texts) kids.old))) }
{
    match kids {
        [body] => Ok(Value {
            place: body.place,
            made: Made::Arms(Vec::new(alloc), node_in(&mut body.made)),
        }),
        [word, condition, body, rest] => {
            let (further, otherwise) = arms_in(alloc, &mut rest.made);
            let condition = node_in(&mut condition.made);
            let block = node_in(&mut body.made);
            let arms = with_arm(alloc, further, condition, block)?;
            Ok(Value {
                place: word.place,
                made: Made::Arms(arms, otherwise),
            })
        }
        _ => Ok(unwritten(Made::Absent)),
    }
}

/// The three fields of a `for`, in parentheses.
pub fn header(kids: &mut [Value]) -> Value
    ensures { (texts : List (List ℕ)) → value_at texts result ≡ header (kids_of (map (value_at texts) kids.old)) }
{
    match kids {
        [left, first, condition, next, _] => Value {
            place: left.place,
            made: Made::Header(
                node_in(&mut first.made),
                node_in(&mut condition.made),
                node_in(&mut next.made),
            ),
        },
        _ => unwritten(Made::Absent),
    }
}

/// An expression alone is evaluated; with a right side it is assigned to.
pub fn assigned(alloc: Global, place: Place, target: Node, right: Node) -> Result<Node, NoMemory>
    ensures { (texts : List (List ℕ)) → IfOk result (λ n. node_at texts n ≡ assigned place (node_at texts target) (node_at texts right)) }
{
    let target = Box::new(alloc, target)?;
    if is_nothing(&right) {
        return Ok(Node::Eval(place, target));
    }
    let right = Box::new(alloc, right)?;
    Ok(Node::Assign(place, target, right))
}

/// An expression, or an assignment to it.
pub fn simple(alloc: Global, kids: &mut [Value]) -> Result<Value, NoMemory>
    ensures { (texts : List (List ℕ)) → IfOk result (λ v. value_at texts v ≡ simple (kids_of (map (value_at texts) kids.old))) }
{
    match kids {
        [target, right] => {
            let node = assigned(
                alloc,
                target.place,
                node_in(&mut target.made),
                node_in(&mut right.made),
            )?;
            Ok(Value {
                place: target.place,
                made: Made::Tree(node),
            })
        }
        _ => Ok(unwritten(Made::Absent)),
    }
}
