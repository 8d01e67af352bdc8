// What a class declares under the names that it inherits.
ghost use Rattle.std.specs.Prelude.{◌≡◌, ◌&&◌, ℕ, Some, map, slice_get, IfSome, IfOk};
ghost use Rattle.std.specs.Option.{option_and_then};
ghost use Rattle.vg_tree.specs.Held.{type_at, param_at, node_at};
ghost use Rattle.vg_source.specs.Declared.{written_type, row_of, class_member};
ghost use Rattle.vg_rules.specs.Fits.{same_type};
ghost use Rattle.vg_types_tables.specs.Views.{declarations_at, member_view, params_view, result_view};
ghost use Rattle.vg_types_tables.specs.Declares.{Declares};
ghost use Rattle.vg_types_inherited.specs.Asked.{IsInTables, IsMethodNumber, member_rule, field_rule, method_rule};

use crate::same::{same, same_params};
use vg_base::{Names, NoMemory};
use vg_tree::{Node, Param, TypeTree};
use vg_types_tables::{Declared, MemberNumber, class_member, class_of};
use vg_types_views::text_of;

/// The member that the class of this name has or inherits under a name.
pub(crate) fn inherited_member(
    names: &Names,
    root: &Node,
    declared: &Declared,
    class: &str,
    text: &str,
) -> Option<MemberNumber>
    requires { Declares names.now root.now declared.now }
    ensures member { option_and_then (member_view names.now declared.now) result
        ≡ class_member (declarations_at names.now root.now) class.now text.now }
    ensures there { IfSome result (IsInTables declared.now.tables) }
{
    match class_of(declared, class) {
        Some(number) => class_member(declared, number, text),
        None => None,
    }
}

/// The rule that a member breaks by its name or its types, of a class that extends the class of this name.
pub(crate) fn member_rule(
    names: &Names,
    root: &Node,
    declared: &Declared,
    above: &str,
    member: &Node,
) -> Result<Option<u8>, NoMemory>
    requires { Declares names.now root.now declared.now }
    ensures { IfOk result (λ r. r ≡ member_rule (declarations_at names.now root.now) above.now (node_at names.now member.now)) }
{
    match member {
        Node::FieldDecl(_, name, _, _) => Ok(field_rule(inherited_member(
            names,
            root,
            declared,
            above,
            text_of(names, *name),
        ))),
        Node::MethodDecl(_, name, params, result, _) => method_rule(
            names,
            root,
            declared,
            inherited_member(names, root, declared, above, text_of(names, *name)),
            params.as_slice(),
            result,
        ),
        Node::ConstructorDecl(_, _, _, _, _) => Ok(None),
        // A tree that no text has.
        _ => Err(NoMemory),
    }
}

// The rule that a field breaks beside what is inherited under its name.
fn field_rule(inherited: Option<MemberNumber>) -> Option<u8>
    ensures { result ≡ field_rule inherited }
{
    match inherited {
        Some(_) => Some(6),
        None => None,
    }
}

// The rule that a method breaks beside what is inherited under its name.
fn method_rule(
    names: &Names,
    root: &Node,
    declared: &Declared,
    inherited: Option<MemberNumber>,
    params: &[Param],
    type_: &TypeTree,
) -> Result<Option<u8>, NoMemory>
    requires declares { Declares names.now root.now declared.now }
    requires there { IfSome inherited (IsInTables declared.now.tables) }
    ensures { IfOk result (λ r. r ≡ method_rule (option_and_then (member_view names.now declared.now) inherited)
        (row_of (map (param_at names.now) params.now)) (written_type (type_at names.now type_.now))) }
{
    match inherited {
        None => Ok(None),
        Some(MemberNumber::Field(_)) => Ok(Some(6)),
        Some(MemberNumber::Method(number)) => {
            match is_same(names, root, declared, number, params, type_) {
                Some(true) => Ok(None),
                Some(false) => Ok(Some(7)),
                // A type that is not in the tables, where all that are written are.
                None => Err(NoMemory),
            }
        }
    }
}

// Whether a method has these parameter types and this result. None where the tables lack one of them.
fn is_same(
    names: &Names,
    root: &Node,
    declared: &Declared,
    number: u16,
    params: &[Param],
    type_: &TypeTree,
) -> Option<bool>
    requires declares { Declares names.now root.now declared.now }
    requires there { IsMethodNumber declared.now.tables number }
    ensures { IfSome result (λ b. b
        ≡ (same_type (row_of (map (param_at names.now) params.now)) (params_view names.now declared.now (slice_get declared.now.tables.methods number))
        && same_type (written_type (type_at names.now type_.now)) (result_view names.now declared.now (slice_get declared.now.tables.methods number)))) }
{
    match declared.tables.methods.as_slice().get(usize::from(number)) {
        Some(method) => match same_params(names, root, declared, params, method.params.as_slice()) {
            Some(true) => same(names, root, declared, type_, method.result),
            Some(false) => Some(false),
            None => None,
        },
        None => unreachable!(),
    }
}
