// The registers of a device.
ghost use Rattle.std.specs.Prelude.{◌≡◌, ℕ, List, [], false, IfOk, OnOk};
ghost use Rattle.vg_tree.specs.Held.{node_at, row_at};
ghost use Rattle.vg_source.specs.Literals.{number_of};
ghost use Rattle.vg_types_heads.specs.Heads.{with_register, with_registers, is_register};

use std::alloc::Global;
use vg_base::{Name, Names, NoMemory};
use vg_tree::Node;
use vg_types_numbers::number_of;
use vg_types_views::{ByText, text_of};

/// The addresses of registers by their names.
pub(crate) fn addresses(
    alloc: Global,
    names: &Names,
    registers: &Node,
) -> Result<ByText<u8>, NoMemory>
    ensures { IfOk result (λ map. map ≡ with_registers (node_at names.now registers.now) []) }
{
    let mut map = ByText::new(alloc);
    let nodes = registers_in(registers)?;
    'registers: for register in nodes {
        add_register(names, register, &mut map)?;
    }
    Ok(map)
}

// The nodes of a row; a tree in which the registers of a device are no row is that of no text.
fn registers_in(node: &Node) -> Result<&[Node], NoMemory>
    ensures { IfOk result (λ nodes. (texts : List (List ℕ)) → node_at texts node.now ≡ row_at texts nodes.now) }
{
    match node {
        Node::Row(nodes) => Ok(nodes.as_slice()),
        _ => Err(NoMemory),
    }
}

// One register more.
fn add_register(names: &Names, register: &Node, map: &mut ByText<u8>) -> Result<(), NoMemory>
    ensures { OnOk result (map.new ≡ with_register (node_at names.now register.now) map.old) }
{
    match register {
        Node::RegisterDecl(_, name, number) => {
            let address = address_of(text_of(names, *number))?;
            map.add(text_of(names, *name), address)?;
            Ok(())
        }
        _ => passed(register),
    }
}

// The address that a number writes.
fn address_of(number: &str) -> Result<u8, NoMemory>
    ensures { IfOk result (λ address. address ≡ number_of number.now) }
{
    match u8::try_from(number_of(number)) {
        Ok(address) => Ok(address),
        // Cannot come: the rules ask for addresses of at most 0xFF.
        Err(_) => Err(NoMemory),
    }
}

// Past what is no register.
fn passed(register: &Node) -> Result<(), NoMemory>
    requires { is_register register.now ≡ false }
    ensures { is_register register.now ≡ false }
{
    let _ = register;
    Ok(())
}
