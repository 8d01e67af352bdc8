// Classes and components, one by one.
ghost use Rattle.std.specs.Prelude.{◌≡◌, ◌++◌, ℕ, List, length, map, OnOk};
ghost use Rattle.std.specs.List.{AllByRecursion};
ghost use Rattle.vg_core.specs.declared.program.Target.TheVariants as target;
ghost use Rattle.vg_types_interned.specs.declared.table.Types.{Types};
ghost use Rattle.vg_types_members.specs.Members.{IsMade, home_view, view_of};
ghost use Rattle.vg_types_homes.specs.Homes.{AreHomes, no_view, homes_view, class_behind, component_behind};

use std::alloc::Global;
use vg_base::{Names, NoMemory, Row};
use vg_core::{CoreType, Target};
use vg_types_interned::Types;
use vg_types_members::{Making, Own, Selectors};
use vg_types_tables::MemberNumber;
use vg_types_views::ByText;

/// What classes and components declare, each list in order of the text: the members of each by name; of each class the numbers of its own fields and
/// methods, and the types of the parameters of its construction; the fields of components; and all that can be called.
#[derive(Drop)]
pub struct Homes {
    pub making: Making,
    pub class_members: Row<ByText<MemberNumber>>,
    pub class_fields: Row<Row<u32>>,
    pub class_methods: Row<Row<u16>>,
    pub class_params: Row<Row<CoreType>>,
    pub component_members: Row<ByText<MemberNumber>>,
    pub globals: Row<u32>,
    pub targets: Row<Target>,
}

/// Before the first declaration.
pub(crate) fn no_homes(alloc: Global) -> Homes
    ensures view { (texts : List (List ℕ)) (types : Types) → homes_view texts types result ≡ no_view }
    ensures sound { (texts : List (List ℕ)) (types : Types) → AreHomes texts types result }
{
    Homes {
        making: Making {
            fields: Row::new(alloc),
            methods: Row::new(alloc),
            selectors: Selectors::new(alloc),
        },
        class_members: Row::new(alloc),
        class_fields: Row::new(alloc),
        class_methods: Row::new(alloc),
        class_params: Row::new(alloc),
        component_members: Row::new(alloc),
        globals: Row::new(alloc),
        targets: Row::new(alloc),
    }
}

/// One class more, which declares this, behind what was made of its members.
pub(crate) fn keep_class(
    names: &Names,
    types: &Types,
    class: u16,
    params: Row<CoreType>,
    own: Own,
    homes: &mut Homes,
) -> Result<(), NoMemory>
    requires number { class ≡ length homes.old.class_members }
    requires params { AllByRecursion (IsMade types.now) params }
    requires sound { AreHomes names.now types.now homes.old }
    ensures view { OnOk result (homes_view names.now types.now homes.new
        ≡ class_behind (map (view_of names.now types.now) params) (home_view names.now types.now homes.old.making own)
        (homes_view names.now types.now homes.old)) }
    ensures sound { OnOk result (AreHomes names.now types.now homes.new) }
{
    let Own {
        members,
        fields,
        methods,
    } = own;
    homes.targets.push(Target::Construct(class))?;
    run_all(&mut homes.targets, methods.as_slice())?;
    homes.class_members.push(members)?;
    homes.class_fields.push(fields)?;
    homes.class_methods.push(methods)?;
    homes.class_params.push(params)
}

/// One component more, which declares this, behind what was made of its members.
pub(crate) fn keep_component(
    names: &Names,
    types: &Types,
    component: u16,
    own: Own,
    homes: &mut Homes,
) -> Result<(), NoMemory>
    requires number { component ≡ length homes.old.component_members }
    requires sound { AreHomes names.now types.now homes.old }
    ensures view { OnOk result (homes_view names.now types.now homes.new
        ≡ component_behind (home_view names.now types.now homes.old.making own) (homes_view names.now types.now homes.old)) }
    ensures sound { OnOk result (AreHomes names.now types.now homes.new) }
{
    let Own {
        members,
        fields,
        methods,
    } = own;
    homes.targets.push(Target::Start(component))?;
    run_all(&mut homes.targets, methods.as_slice())?;
    append(&mut homes.globals, fields.as_slice())?;
    homes.component_members.push(members)
}

// Methods behind what can be called.
fn run_all(targets: &mut Row<Target>, methods: &[u16]) -> Result<(), NoMemory>
    ensures { OnOk result (targets.new ≡ targets.old ++ map target.Run methods.now) }
{
    'methods: for method in methods {
        targets.push(Target::Run(*method))?;
    }
    Ok(())
}

// Numbers behind numbers.
fn append(row: &mut Row<u32>, more: &[u32]) -> Result<(), NoMemory>
    ensures { OnOk result (row.new ≡ row.old ++ more.now) }
{
    'more: for number in more {
        row.push(*number)?;
    }
    Ok(())
}
