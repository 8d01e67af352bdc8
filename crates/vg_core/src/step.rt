// Steps.
use crate::operator::{Operator, Prefix};
use crate::types::CoreType;
use crate::value::CoreValue;

/// One step. Its operands wait, and its value comes in their place.
///
/// Where the first number is said to be a node, it is the number of the node of the tree that a stop at initialisation keeps. A
/// type is a static type, and holds of the value in hand; a count is a number of arguments.
#[derive(Clone, Copy, Debug, PartialEq, Eq)]
pub enum Step {
    /// A value that is no reference to a cell.
    Put(CoreValue),
    /// The array of the literal of this number.
    Literal(u32),
    /// The receiver.
    This,
    /// The parameter or local of this number in its body.
    Local(u8),
    /// The value of this field of a component.
    ComponentField(u32),
    /// A read of the device register at this address.
    Register(u8),
    /// This method of a component, as a value.
    ComponentMethod(u16),
    /// An operator on a value of this type.
    Apply(Prefix, CoreType),
    /// A node, an operator, and the types of its left and its right operand.
    Operate(u32, Operator, CoreType, CoreType),
    /// A node, the type of the value, and the type that it is cast to.
    CastTo(u32, CoreType, CoreType),
    /// Whether an object is of this class or below it.
    IsBelow(u16),
    /// A node, and a field of the object.
    Field(u32, u32),
    /// A node, and the number of the type of the array's elements.
    Item(u32, u32),
    /// A node, and the number of the type of the array's elements.
    Length(u32, u32),
    /// A node, a static class and a selector: the object's method, as a value.
    MethodOf(u32, u16, u16),
    /// A node, a static class, a selector and a count: the object waits below the arguments.
    CallMethod(u32, u16, u16, u16),
    /// A node, a count and the number of a function type: the delegate waits below the arguments.
    CallValue(u32, u16, u32),
    /// A method of a component and a count.
    CallComponent(u16, u16),
    /// A node, a class and a count.
    NewObject(u32, u16, u16),
    /// A node, and the number of the type of the elements.
    NewArray(u32, u32),
    /// The parameter or local of this number, and its type.
    SetLocal(u8, CoreType),
    /// This field of a component is set.
    SetComponentField(u32),
    /// A write of the device register at this address.
    SetRegister(u8),
    /// A node, and a field: the object waits below the value.
    SetField(u32, u32),
    /// A node, and the number of the type of the elements: the array and the index wait below the value.
    SetItem(u32, u32),
    /// The newest value is dropped.
    Forget,
    /// The construction of the class above, and a count.
    Super(u16, u16),
}
