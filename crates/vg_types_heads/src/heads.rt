// The names of declarations.
ghost use Rattle.std.specs.Prelude.{◌≡◌, ℕ, List, false, IfOk, OnOk};
ghost use Rattle.std.specs.Option.{option_map};
ghost use Rattle.vg_tree.specs.Held.{text_at, node_at, row_at};
ghost use Rattle.vg_types_heads.specs.Heads.{heads_view, no_heads, with_class, with_component, with_device, with_head, with_heads, is_headed};

use crate::registers::addresses;
use std::alloc::Global;
use vg_base::{Name, Names, NoMemory, Row};
use vg_tree::Node;
use vg_types_views::{ByText, text_of};

/// The numbers of classes, components and devices by their names, and their names and those of the classes above them in order of the text; of each
/// device the addresses of its registers by their names.
#[derive(Drop)]
pub struct Heads {
    pub classes: ByText<u16>,
    pub class_names: Row<Name>,
    pub above: Row<Option<Name>>,
    pub components: ByText<u16>,
    pub component_names: Row<Name>,
    pub devices: ByText<u32>,
    pub registers: Row<ByText<u8>>,
}

/// The names of all declarations of a row.
pub fn declared_heads(
    alloc: Global,
    names: &Names,
    declarations: &[Node],
) -> Result<Heads, NoMemory>
    ensures { IfOk result (λ heads. heads_view names.now heads ≡ with_heads (row_at names.now declarations.now) no_heads) }
{
    let mut heads = no_heads(alloc);
    'declarations: for declaration in declarations {
        add_head(alloc, names, declaration, &mut heads)?;
    }
    Ok(heads)
}

// Before the first declaration.
fn no_heads(alloc: Global) -> Heads
    ensures { (texts : List (List ℕ)) → heads_view texts result ≡ no_heads }
{
    Heads {
        classes: ByText::new(alloc),
        class_names: Row::new(alloc),
        above: Row::new(alloc),
        components: ByText::new(alloc),
        component_names: Row::new(alloc),
        devices: ByText::new(alloc),
        registers: Row::new(alloc),
    }
}

// One declaration more.
fn add_head(
    alloc: Global,
    names: &Names,
    declaration: &Node,
    heads: &mut Heads,
) -> Result<(), NoMemory>
    ensures { OnOk result (heads_view names.now heads.new ≡ with_head (node_at names.now declaration.now) (heads_view names.now heads.old)) }
{
    match declaration {
        Node::ClassDecl(_, name, above, _) => add_class(names, *name, *above, heads),
        Node::ComponentDecl(_, name, _) => add_component(names, *name, heads),
        Node::DeviceDecl(_, name, registers) => {
            let registers = addresses(alloc, names, registers)?;
            add_device(names, *name, registers, heads)
        }
        _ => passed(declaration),
    }
}

// Past a declaration that is none of these.
fn passed(declaration: &Node) -> Result<(), NoMemory>
    requires { is_headed declaration.now ≡ false }
    ensures { is_headed declaration.now ≡ false }
{
    let _ = declaration;
    Ok(())
}

// One class more.
fn add_class(
    names: &Names,
    name: Name,
    above: Option<Name>,
    heads: &mut Heads,
) -> Result<(), NoMemory>
    ensures { OnOk result (heads_view names.now heads.new
        ≡ with_class (text_at names.now name) (option_map (text_at names.now) above) (heads_view names.now heads.old)) }
{
    let number = next_number(heads.class_names.len())?;
    heads.classes.add(text_of(names, name), number)?;
    heads.class_names.push(name)?;
    heads.above.push(above)
}

// One component more.
fn add_component(names: &Names, name: Name, heads: &mut Heads) -> Result<(), NoMemory>
    ensures { OnOk result (heads_view names.now heads.new ≡ with_component (text_at names.now name) (heads_view names.now heads.old)) }
{
    let number = next_number(heads.component_names.len())?;
    heads.components.add(text_of(names, name), number)?;
    heads.component_names.push(name)
}

// One device more, with the addresses of its registers.
fn add_device(
    names: &Names,
    name: Name,
    registers: ByText<u8>,
    heads: &mut Heads,
) -> Result<(), NoMemory>
    ensures { OnOk result (heads_view names.now heads.new ≡ with_device (text_at names.now name) registers (heads_view names.now heads.old)) }
{
    let number = match u32::try_from(heads.registers.len()) {
        Ok(number) => number,
        // There is no memory for more devices than have a number.
        Err(_) => return Err(NoMemory),
    };
    heads.devices.add(text_of(names, name), number)?;
    heads.registers.push(registers)
}

// The number behind so many classes or components.
fn next_number(count: usize) -> Result<u16, NoMemory>
    ensures { IfOk result (λ number. number ≡ count) }
{
    match u16::try_from(count) {
        Ok(number) => Ok(number),
        // Cannot come: they were counted.
        Err(_) => Err(NoMemory),
    }
}
