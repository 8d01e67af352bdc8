// The tables, from what the passes over declarations left.
ghost use Rattle.std.specs.Prelude.{◌≡◌, length, IfOk};
ghost use Rattle.vg_types_hierarchy.specs.Classes.{first_of, the_class};
ghost use Rattle.vg_types_declare.specs.Made.{IsMade, IsMoved};

use crate::parts::{Lists, Others};
use std::alloc::Global;
use vg_base::{NoMemory, Row};
use vg_core::{Class, Tables};
use vg_types_hierarchy::{Parts, classes_of, with_slots};
use vg_types_homes::Homes;
use vg_types_interned::Types;
use vg_types_literals::Literals;
use vg_types_tables::Declared;

/// The lists that are made anew, where chains of classes have at most so many classes, and these classes are above classes.
pub(crate) fn lists_of(
    alloc: Global,
    most: usize,
    others: &Others,
    above: &[Option<u16>],
    types: &Types,
    homes: &Homes,
) -> Result<Lists, NoMemory>
    ensures { IfOk result (IsMade most others.now.class_names above.now types.now homes.now) }
{
    let classes = class_table(alloc, most, others, above, homes)?;
    let fields = with_slots(
        alloc,
        classes.as_slice(),
        homes.class_fields.as_slice(),
        homes.making.fields.as_slice(),
    )?;
    let types = types.in_order(alloc)?;
    Ok(Lists {
        classes,
        fields,
        types,
    })
}

// The classes.
fn class_table(
    alloc: Global,
    most: usize,
    others: &Others,
    above: &[Option<u16>],
    homes: &Homes,
) -> Result<Row<Class>, NoMemory>
    ensures { IfOk result (λ row. row
        ≡ first_of (the_class most others.now.class_names above.now homes.now.class_fields homes.now.class_methods homes.now.class_params)
        (length others.now.class_names)) }
{
    let parts = Parts {
        names: others.class_names.as_slice(),
        above,
        fields: homes.class_fields.as_slice(),
        methods: homes.class_methods.as_slice(),
        params: homes.class_params.as_slice(),
    };
    classes_of(alloc, most, parts)
}

/// What is declared. It takes no memory.
pub(crate) fn declared_of(
    others: Others,
    types: Types,
    homes: Homes,
    lists: Lists,
    literals: Literals,
) -> Declared
    ensures { IsMoved others types homes lists literals result }
{
    let Homes {
        making,
        class_members,
        component_members,
        globals,
        targets,
        ..
    } = homes;
    Declared {
        tables: Tables {
            classes: lists.classes,
            components: others.component_names,
            fields: lists.fields,
            globals,
            methods: making.methods,
            targets,
            types: lists.types,
            literals: literals.texts,
            char_type: 0,
        },
        classes: types.classes,
        components: others.components,
        devices: others.devices,
        class_members,
        component_members,
        registers: others.registers,
        literal_nodes: literals.nodes,
        type_numbers: types.numbers,
    }
}
