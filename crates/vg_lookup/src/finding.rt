// Which member a word names.
ghost use Rattle.std.specs.Prelude.{◌≡◌, slice_get};
ghost use Rattle.vg_core.specs.HeldProgram.{program_at};
ghost use Rattle.vg_core.specs.Naming.{naming_of};
ghost use Rattle.vg_core.specs.Typing.{WellTyped};
ghost use Rattle.vg_renamed.specs.NamesTell.{NamesTell};
ghost use Rattle.vg_lookup.specs.Lookup.{Finds};
ghost use Rattle.vg_lookup.specs.Mirrors.{FindsAny, FindsField, FindsFieldIn, FindsInClasses, FindsMethod, field_has, method_has, owner_there};

use crate::naming::{class_or_component, is_word_of, text_of};
use vg_base::Names;
use vg_core::{Member, Owner, Program, Tables, Target};

/// The method or field that a word names, in a well typed program whose names tell its numbers apart; none exactly where no class or component of it declares one that
/// the word names. A class declares its own members, and not those that it inherits. It takes no memory.
pub fn find_member(names: &Names, program: &Program, word: &str) -> Option<Member>
    ensures { NamesTell (naming_of names.now program.now.tables) (program_at program.now) → WellTyped (program_at program.now)
        → Finds names.now (program_at program.now) word.now result }
{
    find_any(names, &program.tables, word.as_bytes())
}

// The same, by the tables: the methods stand among what can be called, and the fields among those of the components or of a class.
fn find_any(names: &Names, tables: &Tables, word: &[u8]) -> Option<Member>
    ensures { FindsAny names.now tables.now word.now result }
{
    match find_method(names, tables, word) {
        Some(method) => Some(Member::Method(method)),
        None => match find_field(names, tables, word) {
            Some(field) => Some(Member::Field(field)),
            None => None,
        },
    }
}

// A method of this name.
fn find_method(names: &Names, tables: &Tables, word: &[u8]) -> Option<u16>
    ensures { FindsMethod names.now tables.now word.now result }
{
    for target in tables.targets.as_slice() {
        match *target {
            Target::Run(method) => {
                if method_has(names, tables, word, method) {
                    return Some(method);
                }
            }
            _ => {}
        }
    }
    None
}

// A field of this name.
fn find_field(names: &Names, tables: &Tables, word: &[u8]) -> Option<u32>
    ensures { FindsField names.now tables.now word.now result }
{
    match find_field_in(names, tables, word, tables.globals.as_slice()) {
        Some(field) => Some(field),
        None => find_in_classes(names, tables, word),
    }
}

// A field of this name of a class.
fn find_in_classes(names: &Names, tables: &Tables, word: &[u8]) -> Option<u32>
    ensures { FindsInClasses names.now tables.now word.now result }
{
    for class in tables.classes.as_slice() {
        match find_field_in(names, tables, word, class.fields.as_slice()) {
            Some(field) => return Some(field),
            None => {}
        }
    }
    None
}

// A field of this name among these.
fn find_field_in(names: &Names, tables: &Tables, word: &[u8], fields: &[u32]) -> Option<u32>
    ensures { FindsFieldIn names.now tables.now word.now fields.now result }
{
    for field in fields {
        if field_has(names, tables, word, *field) {
            return Some(*field);
        }
    }
    None
}

// Whether a method is there, and has this name.
fn method_has(names: &Names, tables: &Tables, word: &[u8], method: u16) -> bool
    ensures { result ≡ method_has names.now tables.now word.now (slice_get tables.now.methods method) }
{
    match tables.methods.as_slice().get(usize::from(method)) {
        Some(found) => is_word_of(
            word,
            class_or_component(names, tables, found.owner),
            text_of(names, found.name),
        ),
        None => false,
    }
}

// Whether a field is there, has this name, and is declared by what is there.
fn field_has(names: &Names, tables: &Tables, word: &[u8], field: u32) -> bool
    ensures { result ≡ field_has names.now tables.now word.now (slice_get tables.now.fields field) }
{
    match tables.fields.as_slice().get(field as usize) {
        Some(found) => {
            owner_there(tables, found.owner)
                && is_word_of(
                    word,
                    class_or_component(names, tables, found.owner),
                    text_of(names, found.name),
                )
        }
        None => false,
    }
}

// Whether a class is there.
fn owner_there(tables: &Tables, owner: Owner) -> bool
    ensures { result ≡ owner_there tables.now owner }
{
    match owner {
        Owner::InClass(class) => usize::from(class) < tables.classes.len(),
        Owner::InComponent(_) => true,
    }
}
