// Registers of devices.
ghost use Rattle.std.specs.Prelude.{◌≡◌, ◌<◌, ◌+◌, ◌^◌, ◌&&◌, ℕ, List, [], IfSome};
ghost use Rattle.vg_syntax.specs.Numbering.{count_nodes, numbered};
ghost use Rattle.vg_tree.specs.Held.{node_at, row_at};
ghost use Rattle.vg_rules.specs.Signatures.{address_keeps, registers_breach};
ghost use Rattle.vg_types_views.specs.Judges.{Judges};
ghost use Rattle.vg_types_signatures.specs.Asked.{register_of, register_view};

use std::alloc::Global;
use vg_base::{Name, Names, Refusal};
use vg_tree::Node;
use vg_types_classes::{broken, row_of};
use vg_types_counts::count_nodes;
use vg_types_numbers::{is_hexadecimal, number_of};
use vg_types_views::{Broken, ByText, text_of};

// A register: its name and its number.
#[derive(Clone, Copy, Debug, PartialEq, Eq)]
pub(crate) struct Register {
    pub name: Name,
    pub number: Name,
}

/// The first breach of the rule on the registers of a device, the first of which has this number.
pub(crate) fn registers(
    alloc: Global,
    names: &Names,
    row: &Node,
    first: u32,
) -> Result<(), Refusal<Broken>>
    requires { first + count_nodes (node_at [] row.now) < 2 ^ 32 }
    ensures { Judges (λ u. Unit {0}) result (registers_breach [] (numbered first (node_at names.now row.now))) }
{
    match row_of(row) {
        Some(nodes) => registers_in(alloc, names, nodes, first),
        // A tree that no text has.
        None => Err(Refusal::NoMemory),
    }
}

// The first breach among these registers.
fn registers_in(
    alloc: Global,
    names: &Names,
    nodes: &[Node],
    first: u32,
) -> Result<(), Refusal<Broken>>
    requires { first + count_nodes (row_at [] nodes.now) < 2 ^ 32 }
    ensures { Judges (λ u. Unit {0}) result (registers_breach [] (numbered first (row_at names.now nodes.now))) }
{
    let mut seen = ByText::new(alloc);
    let mut next = first;
    'each: for node in nodes {
        let register = match register_of(node) {
            Some(register) => register,
            // A tree that no text has.
            None => return Err(Refusal::NoMemory),
        };
        let new = seen.add(text_of(names, register.name), ())?;
        if !register_keeps(text_of(names, register.number), new) {
            return Err(broken(12, next));
        }
        next = next + count_nodes(node);
    }
    Ok(())
}

// The name and the number of a register.
fn register_of(node: &Node) -> Option<Register>
    ensures { IfSome result (λ r. (texts : List (List ℕ)) → register_of (node_at texts node.now) ≡ Some (register_view texts r)) }
{
    match node {
        Node::RegisterDecl(_, name, number) => Some(Register {
            name: *name,
            number: *number,
        }),
        _ => None,
    }
}

// Whether a register keeps the rule, whose name is new or not.
fn register_keeps(number: &str, new: bool) -> bool
    ensures { result ≡ (address_keeps number.now && new) }
{
    address_keeps(number) && new
}

// Whether a number is the address of a device register.
fn address_keeps(number: &str) -> bool
    ensures { result ≡ address_keeps number.now }
{
    let address = number_of(number);
    is_hexadecimal(number)
        && address >= 0x20
        && address <= 0xFF
        && !matches!(address, 0x5B | 0x5D | 0x5E | 0x5F)
}
