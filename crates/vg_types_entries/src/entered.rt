// What entries name.
ghost use Rattle.std.specs.Prelude.{◌≡◌, is_some, slice_get, IfSome};
ghost use Rattle.vg_source.specs.Declared.{component_member};
ghost use Rattle.vg_rules.specs.Entries.{can_enter};
ghost use Rattle.vg_types_tables.specs.Views.{declarations_at};
ghost use Rattle.vg_types_tables.specs.Declares.{Declares};
ghost use Rattle.vg_types_entries.specs.Entering.{IsEntered, IsMethodNumber, is_plain, is_nothing};

use vg_base::Names;
use vg_core::CoreType;
use vg_tree::Node;
use vg_types_tables::{Declared, MemberNumber, component_member, component_of};

/// The method of a component that an entry names, where it has no parameters and no result.
pub(crate) fn entered(
    names: &Names,
    root: &Node,
    declared: &Declared,
    component: &str,
    method: &str,
) -> Option<u16>
    requires { Declares names.now root.now declared.now }
    ensures some { is_some result ≡ can_enter (component_member (declarations_at names.now root.now) component.now method.now) }
    ensures entered { IfSome result (λ m. IsEntered names.now declared.now component.now method.now m) }
{
    match component_of(declared, component) {
        Some(number) => match component_member(declared, number, method) {
            Some(MemberNumber::Method(found)) => plain(declared, found),
            Some(MemberNumber::Field(_)) => None,
            None => None,
        },
        None => None,
    }
}

// A method, where it has no parameters and no result.
fn plain(declared: &Declared, number: u16) -> Option<u16>
    requires { IsMethodNumber declared.now.tables number }
    ensures some { is_some result ≡ is_plain (slice_get declared.now.tables.methods number) }
    ensures same { IfSome result (λ m. m ≡ number) }
{
    match declared.tables.methods.as_slice().get(usize::from(number)) {
        Some(method) => {
            if method.params.is_empty() && is_nothing(method.result) {
                Some(number)
            } else {
                None
            }
        }
        None => unreachable!(),
    }
}

// Whether a result is none.
fn is_nothing(type_: CoreType) -> bool
    ensures { result ≡ is_nothing type_ }
{
    match type_ {
        CoreType::NoType => true,
        _ => false,
    }
}
