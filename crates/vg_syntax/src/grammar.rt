// The symbols of the grammar.
use crate::kind::Kind;

/// A part of the grammar: what stands on the left of a rule.
///
/// A part whose name ends in `Level` is a chain of operators of one level, and one whose name ends in `Rest` is what follows its first operand.
#[derive(Clone, Copy, Debug, PartialEq, Eq)]
pub enum Part {
    /// A whole text.
    Text,
    /// The further declarations of a text.
    Declarations,
    /// A declaration at the top.
    Declaration,
    /// The class above a class.
    Extends,
    /// The members of a class or a component, in braces.
    ClassBody,
    /// Any number of members.
    Members,
    /// The registers of a device, in braces.
    DeviceBody,
    /// Any number of registers.
    Registers,
    /// A register of a device.
    Register,
    /// The entries of a program, in braces.
    ProgramBody,
    /// Any number of entries.
    Entries,
    /// An entry of a program.
    Entry,
    /// What an entry is for.
    Key,
    /// The method that an entry names.
    Handler,
    /// A member of a class or a component.
    Member,
    /// The first value of a field or a local.
    Initial,
    /// The type of a method's result.
    Result,
    /// The call of the constructor of the class above.
    SuperCall,
    /// The parameters of a method or a constructor, in parentheses.
    Parameters,
    /// Any number of parameters.
    ParameterList,
    /// The parameters behind the first.
    MoreParameters,
    /// A name and its type.
    Typed,
    /// A type.
    Type,
    /// The parameter types of a function type, in parentheses.
    TypeArguments,
    /// Any number of types.
    TypeList,
    /// The types behind the first.
    MoreTypes,
    /// The result type of a function type.
    PlainResult,
    /// A type that is no bare function type.
    Plain,
    /// Any number of array levels.
    Dimensions,
    /// A type without array levels.
    Atom,
    /// A type without array levels that is no class.
    OtherAtom,
    /// Statements in braces.
    Block,
    /// Any number of statements.
    Statements,
    /// A statement.
    Statement,
    /// A condition in its parentheses.
    Condition,
    /// What follows the block of an `if`.
    Else,
    /// What stands behind an `else`.
    ElseArm,
    /// The three fields of a `for`, in parentheses.
    ForHeader,
    /// The condition of a `for` between its semicolons.
    ForTest,
    /// A simple statement, or nothing.
    MaybeSimple,
    /// An expression, or nothing.
    MaybeExpression,
    /// An expression, or an assignment to it.
    Simple,
    /// The right side of an assignment.
    Assigned,
    /// An expression: a chain of level 1.
    Expression,
    /// The operators of level 1 with their operands.
    OrRest,
    /// A chain of level 2.
    AndLevel,
    /// The operators of level 2 with their operands.
    AndRest,
    /// A chain of level 3.
    EqualityLevel,
    /// The operators of level 3 with their operands.
    EqualityRest,
    /// A chain of level 4.
    ComparisonLevel,
    /// The operators of level 4 with their operands.
    ComparisonRest,
    /// A chain of level 5.
    BitOrLevel,
    /// The operators of level 5 with their operands.
    BitOrRest,
    /// A chain of level 6.
    BitXorLevel,
    /// The operators of level 6 with their operands.
    BitXorRest,
    /// A chain of level 7.
    BitAndLevel,
    /// The operators of level 7 with their operands.
    BitAndRest,
    /// A chain of level 8.
    ShiftLevel,
    /// The operators of level 8 with their operands.
    ShiftRest,
    /// A chain of level 9.
    ConcatLevel,
    /// The operators of level 9 with their operands.
    ConcatRest,
    /// A chain of level 10.
    SumLevel,
    /// The operators of level 10 with their operands.
    SumRest,
    /// A chain of level 11.
    ProductLevel,
    /// The operators of level 11 with their operands.
    ProductRest,
    /// A chain of level 12.
    CastLevel,
    /// The casts behind an operand.
    CastRest,
    /// An operand with the operators before it.
    Unary,
    /// The operators before an operand, behind the first.
    Operators,
    /// An operand with its suffixes.
    Postfix,
    /// Any number of suffixes.
    Suffixes,
    /// An expression in brackets.
    Index,
    /// Arguments in parentheses.
    Arguments,
    /// Any number of arguments.
    ArgumentList,
    /// The arguments behind the first.
    MoreArguments,
    /// What stands behind `new`, with its suffixes.
    New,
    /// What stands behind `new` and a name.
    NewOfName,
    /// What stands behind the length of a new array.
    NewLevels,
    /// What stands behind a `[` there.
    NewLevel,
    /// An operand without operators and suffixes.
    Primary,
}

/// A symbol on the right of a rule: a token of a kind, or a part.
#[derive(Clone, Copy, Debug, PartialEq, Eq)]
pub enum Symbol {
    Sign(Kind),
    Use(Part),
}
