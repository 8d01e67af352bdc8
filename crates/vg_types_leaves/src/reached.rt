// What a name or a Member suffix reaches.
ghost use Rattle.std.specs.Prelude.{◌≡◌};
ghost use Rattle.vg_core.specs.HeldProgram.{code_of};
ghost use Rattle.vg_meaning.specs.Code.{Nothing};
ghost use Rattle.vg_types_leaves.specs.Judgements.{HasValue};
ghost use Rattle.vg_types_leaves.specs.Reached.{IsReached, front, reached_head, reached_code, Places};

use std::alloc::Global;
use vg_core::{Code, CoreType, Step};
use vg_types_tables::{Head, Storing, row};

/// What is read or called under a name, with what waits for it.
#[derive(Clone, Copy, Debug, PartialEq, Eq)]
pub enum Reached {
    /// A parameter or local, and its type.
    Local(u8, CoreType),
    /// Of an object of this class: a field, and its type.
    Field(u16, u32, CoreType),
    /// A field of a component, and its type.
    Global(u32, CoreType),
    /// A device register, by its address.
    Register(u8),
    /// The length of an array of elements of the type of this number.
    Length(u32),
    /// Of an object of this class: a method.
    OwnMethod(u16, u16),
    /// A method of a component.
    ItsMethod(u16),
}

impl Reached {
    /// What it leaves, at the node of this number.
    pub fn head(self, id: u32) -> Head
        ensures head { result ≡ reached_head id self }
        ensures value { HasValue result }
    {
        match self {
            Reached::Local(_, type_) => Head::Value(type_),
            Reached::Field(_, _, type_) => Head::Value(type_),
            Reached::Global(_, type_) => Head::Value(type_),
            Reached::Register(_) => Head::Value(CoreType::RawType(8)),
            Reached::Length(_) => Head::Value(CoreType::IntType),
            Reached::OwnMethod(class, method) => Head::OwnMethod(id, class, method),
            Reached::ItsMethod(method) => Head::ItsMethod(method),
        }
    }

    /// How its value is read, at the node of this number; a method is not read.
    pub fn code(self, alloc: Global, id: u32) -> Code
        ensures { code_of result ≡ reached_code id self }
    {
        match self {
            Reached::Local(number, _) => Code::Do(Step::Local(number)),
            Reached::Field(_, field, _) => Code::Do(Step::Field(id, field)),
            Reached::Global(field, _) => Code::Do(Step::ComponentField(field)),
            Reached::Register(address) => Code::Do(Step::Register(address)),
            Reached::Length(element) => Code::Do(Step::Length(id, element)),
            Reached::OwnMethod(_, _) | Reached::ItsMethod(_) => no_code(alloc),
        }
    }

    /// How it is set, at the node of this number, where it can be.
    pub fn place(self, alloc: Global, id: u32) -> Option<Storing>
        ensures { Places id self result }
    {
        match self {
            Reached::Local(number, type_) => Some(Storing {
                aims: no_code(alloc),
                store: Step::SetLocal(number, type_),
                type_,
            }),
            Reached::Field(_, field, type_) => Some(Storing {
                aims: no_code(alloc),
                store: Step::SetField(id, field),
                type_,
            }),
            Reached::Global(field, type_) => Some(Storing {
                aims: no_code(alloc),
                store: Step::SetComponentField(field),
                type_,
            }),
            Reached::Register(address) => Some(Storing {
                aims: no_code(alloc),
                store: Step::SetRegister(address),
                type_: CoreType::RawType(8),
            }),
            Reached::Length(_) | Reached::OwnMethod(_, _) | Reached::ItsMethod(_) => None,
        }
    }
}

/// No step. It takes no memory.
pub fn no_code(alloc: Global) -> Code
    ensures { code_of result ≡ Nothing }
{
    row(Vec::new(alloc))
}
