// What a class or component declares itself.
ghost use Rattle.std.specs.Prelude.{◌≡◌, ◌<◌, ◌^◌, ℕ, List, [], map, All, is_some, IfOk, IfSome, OnOk};
ghost use Rattle.std.specs.List.{AllByRecursion};
ghost use Rattle.vg_syntax.specs.Numbering.{count_nodes};
ghost use Rattle.vg_syntax.specs.Tree as tree;
ghost use Rattle.vg_tree.specs.Held.{node_at, row_at, param_at};
ghost use Rattle.vg_source.specs.Program.{constructor_in};
ghost use Rattle.vg_types_interned.specs.Types.{type_view};
ghost use Rattle.vg_types_members.specs.Members.{IsMade, IsMaking, home_view, with_members, no_own, is_constructor, written_params};

use crate::member::{Home, Making, Own, add_member};
use std::alloc::Global;
use vg_base::{Names, NoMemory, Row};
use vg_core::CoreType;
use vg_tree::{Node, Param};
use vg_types_interned::{Types, written_params};
use vg_types_views::ByText;

/// The members that a class or component declares itself, behind those that are made.
pub fn add_members(
    alloc: Global,
    names: &Names,
    types: &Types,
    home: Home,
    members: &[Node],
    making: &mut Making,
) -> Result<Own, NoMemory>
    requires room { All (λ n. count_nodes (node_at [] n) < 2 ^ 32) members.now }
    requires sound { IsMaking names.now types.now making.old }
    ensures view { IfOk result (λ own. home_view names.now types.now making.new own
        ≡ with_members home (row_at names.now members.now) (home_view names.now types.now making.old no_own)) }
    ensures sound { OnOk result (IsMaking names.now types.now making.new) }
{
    let mut own = Own {
        members: ByText::new(alloc),
        fields: Row::new(alloc),
        methods: Row::new(alloc),
    };
    'members: for member in members {
        add_member(alloc, names, types, home, member, making, &mut own)?;
    }
    Ok(own)
}

/// The types of the parameters of the constructor among these members, where one is written.
pub fn class_params(
    alloc: Global,
    names: &Names,
    types: &Types,
    members: &[Node],
) -> Result<Row<CoreType>, NoMemory>
    ensures views { IfOk result (λ row. map (type_view types.now.classes types.now.numbers.keys) row
        ≡ written_params (constructor_in (row_at names.now members.now)).params) }
    ensures made { IfOk result (AllByRecursion (IsMade types.now)) }
{
    'members: for member in members {
        if let Some(params) = constructor_params(member) {
            return written_params(alloc, types, names, params);
        }
    }
    Ok(Row::new(alloc))
}

// The parameters of a constructor.
fn constructor_params(member: &Node) -> Option<&[Param]>
    ensures some { is_some result ≡ is_constructor member.now }
    ensures params { IfSome result (λ params. (texts : List (List ℕ)) (rest : tree.Node)
        → (constructor_in (tree.Then (node_at texts member.now) rest)).params ≡ map (param_at texts) params.now) }
{
    match member {
        Node::ConstructorDecl(_, params, _, _, _) => Some(params.as_slice()),
        _ => None,
    }
}
