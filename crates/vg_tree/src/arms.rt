// Rows of pairs that are being made: the conditions and the blocks of an `if`.
ghost use Rattle.std.specs.Prelude.{◌≡◌, List, ℕ, IfOk};
ghost use Rattle.vg_syntax.specs.Tree.{Arm};
ghost use Rattle.vg_tree.specs.Held.{node_at};
ghost use Rattle.vg_tree.specs.HeldMade.{arms_back};

use crate::Node;
use std::alloc::Global;
use vg_base::NoMemory;

/// The node of a row of pairs that is made.
pub fn row_of_arms(arms: Vec<Node>) -> Node
    ensures { (texts : List (List ℕ)) → node_at texts result ≡ arms_back texts arms.items }
{
    let mut arms = arms;
    arms.reverse();
    Node::Arms(arms)
}

/// A row of pairs with one more at its front.
pub fn with_arm(
    alloc: Global,
    arms: Vec<Node>,
    condition: Node,
    block: Node,
) -> Result<Vec<Node>, NoMemory>
    ensures { (texts : List (List ℕ)) → IfOk result (λ v. arms_back texts v.items
        ≡ Arm (node_at texts condition) (node_at texts block) (arms_back texts arms.items)) }
{
    let mut arms = arms;
    let condition = Box::new(alloc, condition)?;
    let block = Box::new(alloc, block)?;
    arms.push(Node::Pair(condition, block))?;
    Ok(arms)
}
