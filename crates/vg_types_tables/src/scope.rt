// What is in scope.
ghost use Rattle.std.specs.Prelude.{◌≡◌, ◌<◌, ◌^◌, ℕ, List, [], ◌∷◌, ◌++◌, length, take, map, reverse, IfSome, OnOk};
ghost use Rattle.std.specs.Option.{option_map};
ghost use Rattle.vg_tree.specs.Held.{text_at};
ghost use Rattle.vg_source.specs.Resolved.{declare, find_local, out_of_block};
ghost use Rattle.vg_types_tables.specs.Views.{typed_view, type_view, scope_view};
ghost use Rattle.vg_types_tables.specs.Declares.{IsKnown};
ghost use Rattle.vg_types_tables.specs.Promises.{IsDeclared, AreDeclared};
ghost use Rattle.vg_types_tables.specs.declared.declared.Declared.{Declared};
ghost use Rattle.vg_types_tables.specs.declared.locals.InScope.{InScope};
ghost use Rattle.vg_types_tables.specs.declared.locals.Locals.{Locals};
ghost use Rattle.vg_core.specs.declared.program.Tables.{Tables};

use crate::declared::Declared;
use crate::locals::{InScope, Locals};
use std::alloc::Global;
use std::mem;
use vg_base::{Name, Names, NoMemory, Row};
use vg_core::CoreType;
use vg_types_views::text_of;

/// The newest parameter or local in scope of this name.
pub fn find_local(
    names: &Names,
    declared: &Declared,
    locals: &Locals,
    text: &str,
) -> Option<InScope>
    ensures found { option_map (typed_view names.now declared.now) result ≡ find_local (scope_view names.now declared.now locals.now).names text.now }
    ensures declared { AreDeclared declared.now.tables locals.now → IfSome result (IsDeclared declared.now.tables locals.now) }
{
    let in_scope = locals.in_scope.as_slice();
    let mut count = in_scope.len();
    while count > 0 {
        let local = in_scope[count - 1];
        if text_of(names, local.name) == text {
            return Some(local);
        }
        count -= 1;
    }
    None
}

impl Locals {
    /// Before the parameters. It takes no memory.
    pub fn new(alloc: Global) -> Self
        ensures in_scope { result.in_scope ≡ [] }
        ensures declared { result.declared ≡ [] }
    {
        Locals {
            alloc,
            in_scope: Row::new(alloc),
            declared: Row::new(alloc),
        }
    }

    /// One more parameter or local.
    pub fn declare(
        &mut self,
        names: &Names,
        declared: &Declared,
        name: Name,
        type_: CoreType,
    ) -> Result<(), NoMemory>
        requires room { length self.old.declared < 2 ^ 8 }
        ensures scope { OnOk result (scope_view names.now declared.now self.new
            ≡ declare (text_at names.now name) (type_view names.now declared.now type_) (scope_view names.now declared.now self.old)) }
        ensures in_scope { OnOk result (self.new.in_scope
            ≡ self.old.in_scope ++ (record { name = name; type_ = type_; number = length self.old.declared }) ∷ []) }
        ensures declared { OnOk result (self.new.declared ≡ self.old.declared ++ type_ ∷ []) }
        ensures kept { OnOk result (
            AreDeclared declared.now.tables self.old → IsKnown declared.now.tables type_ → AreDeclared declared.now.tables self.new) }
    {
        let number = self.declared.len() as u8;
        self.in_scope.push(InScope {
            name,
            type_,
            number,
        })?;
        self.declared.push(type_)?;
        Ok(())
    }

    /// Only the first `count` names stay in scope; no number is given again.
    pub fn leave(&mut self, count: usize)
        ensures in_scope { self.new.in_scope ≡ take count self.old.in_scope }
        ensures declared { self.new.declared ≡ self.old.declared }
        ensures block { (texts : List (List ℕ)) (d : Declared) (around : Locals) → take count self.old.in_scope ≡ around.in_scope
            → scope_view texts d self.new ≡ out_of_block (scope_view texts d around) (scope_view texts d self.old) }
        ensures kept { (p : Tables) → AreDeclared p self.old → AreDeclared p self.new }
    {
        let mut in_scope = mem::replace(&mut self.in_scope, Row::new(self.alloc)).into_vec();
        in_scope.truncate(count);
        self.in_scope = Row::from_vec(in_scope);
    }
}
