// Which parts of the grammar are made alike.
ghost use Rattle.std.specs.Prelude.{◌≡◌};
ghost use Rattle.vg_syntax.specs.Reads.{Kids, made};
ghost use Rattle.vg_reader.specs.Makers.{made_by};

use vg_syntax::Part;

/// How a part is made of its kids.
pub(crate) enum Maker {
    /// Rows, brackets, and what may be left out.
    Row(RowMaker),
    /// Types.
    Type(TypeMaker),
    /// Declarations and their members.
    Declaration(DeclarationMaker),
    /// Statements.
    Statement(StatementMaker),
    /// Expressions.
    Expression(ExpressionMaker),
    /// What stands behind a `new`.
    New(NewMaker),
}

/// Rows, brackets, and what may be left out.
pub(crate) enum RowMaker {
    Row,
    MoreRow,
    Enclosed,
    Optional,
    BehindSign,
}

/// Types.
pub(crate) enum TypeMaker {
    Result,
    Whole,
    Types,
    MoreTypes,
    Plain,
    Dimensions,
    Atom,
    OtherAtom,
}

/// Declarations and their members.
pub(crate) enum DeclarationMaker {
    Whole,
    Declaration,
    Extended,
    Register,
    Entry,
    Handler,
    Member,
    SuperCall,
    Parameters,
    MoreParameters,
    Typed,
}

/// Statements.
pub(crate) enum StatementMaker {
    Block,
    Statement,
    Else,
    ElseArm,
    Header,
    Simple,
}

/// Expressions.
pub(crate) enum ExpressionMaker {
    Level,
    Rest,
    Unary,
    Operators,
    Postfix,
    Suffixes,
    Primary,
}

/// What stands behind a `new`.
pub(crate) enum NewMaker {
    Fresh,
    OfName,
    Levels,
    Level,
}

/// How a part is made of its kids.
pub(crate) fn maker_of(part: Part) -> Maker
    ensures { (kids : Kids) → made part kids ≡ made_by result kids }
{
    match part {
        Part::Declarations
        | Part::Members
        | Part::Registers
        | Part::Entries
        | Part::Statements
        | Part::ArgumentList => Maker::Row(RowMaker::Row),
        Part::MoreArguments => Maker::Row(RowMaker::MoreRow),
        Part::ClassBody
        | Part::DeviceBody
        | Part::ProgramBody
        | Part::Parameters
        | Part::TypeArguments
        | Part::Condition
        | Part::ForTest
        | Part::Index
        | Part::Arguments => Maker::Row(RowMaker::Enclosed),
        Part::Key | Part::MaybeSimple | Part::MaybeExpression => Maker::Row(RowMaker::Optional),
        Part::Initial | Part::Assigned => Maker::Row(RowMaker::BehindSign),
        Part::Result | Part::PlainResult => Maker::Type(TypeMaker::Result),
        Part::Type => Maker::Type(TypeMaker::Whole),
        Part::TypeList => Maker::Type(TypeMaker::Types),
        Part::MoreTypes => Maker::Type(TypeMaker::MoreTypes),
        Part::Plain => Maker::Type(TypeMaker::Plain),
        Part::Dimensions => Maker::Type(TypeMaker::Dimensions),
        Part::Atom => Maker::Type(TypeMaker::Atom),
        Part::OtherAtom => Maker::Type(TypeMaker::OtherAtom),
        Part::Text => Maker::Declaration(DeclarationMaker::Whole),
        Part::Declaration => Maker::Declaration(DeclarationMaker::Declaration),
        Part::Extends => Maker::Declaration(DeclarationMaker::Extended),
        Part::Register => Maker::Declaration(DeclarationMaker::Register),
        Part::Entry => Maker::Declaration(DeclarationMaker::Entry),
        Part::Handler => Maker::Declaration(DeclarationMaker::Handler),
        Part::Member => Maker::Declaration(DeclarationMaker::Member),
        Part::SuperCall => Maker::Declaration(DeclarationMaker::SuperCall),
        Part::ParameterList => Maker::Declaration(DeclarationMaker::Parameters),
        Part::MoreParameters => Maker::Declaration(DeclarationMaker::MoreParameters),
        Part::Typed => Maker::Declaration(DeclarationMaker::Typed),
        Part::Block => Maker::Statement(StatementMaker::Block),
        Part::Statement => Maker::Statement(StatementMaker::Statement),
        Part::Else => Maker::Statement(StatementMaker::Else),
        Part::ElseArm => Maker::Statement(StatementMaker::ElseArm),
        Part::ForHeader => Maker::Statement(StatementMaker::Header),
        Part::Simple => Maker::Statement(StatementMaker::Simple),
        Part::Expression
        | Part::AndLevel
        | Part::EqualityLevel
        | Part::ComparisonLevel
        | Part::BitOrLevel
        | Part::BitXorLevel
        | Part::BitAndLevel
        | Part::ShiftLevel
        | Part::ConcatLevel
        | Part::SumLevel
        | Part::ProductLevel
        | Part::CastLevel => Maker::Expression(ExpressionMaker::Level),
        Part::OrRest
        | Part::AndRest
        | Part::EqualityRest
        | Part::ComparisonRest
        | Part::BitOrRest
        | Part::BitXorRest
        | Part::BitAndRest
        | Part::ShiftRest
        | Part::ConcatRest
        | Part::SumRest
        | Part::ProductRest
        | Part::CastRest => Maker::Expression(ExpressionMaker::Rest),
        Part::Unary => Maker::Expression(ExpressionMaker::Unary),
        Part::Operators => Maker::Expression(ExpressionMaker::Operators),
        Part::Postfix => Maker::Expression(ExpressionMaker::Postfix),
        Part::Suffixes => Maker::Expression(ExpressionMaker::Suffixes),
        Part::Primary => Maker::Expression(ExpressionMaker::Primary),
        Part::New => Maker::New(NewMaker::Fresh),
        Part::NewOfName => Maker::New(NewMaker::OfName),
        Part::NewLevels => Maker::New(NewMaker::Levels),
        Part::NewLevel => Maker::New(NewMaker::Level),
    }
}
