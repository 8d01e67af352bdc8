// Members.
ghost use Rattle.std.specs.Prelude.{◌≡◌, ◌<◌, ◌^◌, length};
ghost use Rattle.vg_core.specs.Members.{owner_has, is_member, first_method, first_field, member_of};

use crate::program::{Owner, Program, Tables};
use vg_base::Name;

/// A member of a class or component, or a cell of the heap.
#[derive(Clone, Copy, Debug, PartialEq, Eq)]
pub enum Member {
    Method(u16),
    Field(u32),
    Cell(u32),
}

impl Program {
    /// The method or field of this name that the class or component of the other name declares: the first one, where there are more.
    ///
    /// None exactly where it declares no such member.
    pub fn find_member(&self, class: Name, member: Name) -> Option<Member>
        requires methods { length self.now.tables.methods < 2 ^ 16 }
        requires fields { length self.now.tables.fields < 2 ^ 32 }
        ensures { result ≡ member_of self.now.tables class member }
    {
        match find_method(&self.tables, class, member) {
            Some(found) => Some(found),
            None => find_field(&self.tables, class, member),
        }
    }
}

// The first method of this name that an owner of the other name declares.
fn find_method(tables: &Tables, class: Name, member: Name) -> Option<Member>
    requires { length tables.now.methods < 2 ^ 16 }
    ensures { result ≡ first_method tables.now class member 0 tables.now.methods }
{
    let mut number = 0u16;
    for method in tables.methods.as_slice() {
        if has_name(tables, method.owner, class) && method.name == member {
            return Some(Member::Method(number));
        }
        number += 1;
    }
    None
}

// The first field of this name that an owner of the other name declares.
fn find_field(tables: &Tables, class: Name, member: Name) -> Option<Member>
    requires { length tables.now.fields < 2 ^ 32 }
    ensures { result ≡ first_field tables.now class member 0 tables.now.fields }
{
    let mut number = 0u32;
    for field in tables.fields.as_slice() {
        if has_name(tables, field.owner, class) && field.name == member {
            return Some(Member::Field(number));
        }
        number += 1;
    }
    None
}

// Whether an owner has this name.
fn has_name(tables: &Tables, owner: Owner, name: Name) -> bool
    ensures { result ≡ owner_has tables.now name owner }
{
    match owner {
        Owner::InClass(class) => match tables.classes.as_slice().get(usize::from(class)) {
            Some(found) => found.name == name,
            None => false,
        },
        Owner::InComponent(component) => match tables
            .components
            .as_slice()
            .get(usize::from(component))
        {
            Some(found) => *found == name,
            None => false,
        },
    }
}
