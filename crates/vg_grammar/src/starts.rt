// What each part can begin with.
ghost use Rattle.std.specs.Prelude.{◌≡◌};
ghost use Rattle.vg_grammar.specs.Tables.{firsts};

use vg_syntax::{Kind, Part};

/// The kinds that a part can begin with, where it is not empty.
pub fn starts(part: Part) -> &'static [Kind]
    ensures { result.now ≡ firsts part }
{
    match part {
        Part::Text | Part::Declarations | Part::Declaration => &[
            Kind::Class,
            Kind::Component,
            Kind::Device,
            Kind::Program,
        ],
        Part::Extends => &[Kind::Extends],
        Part::ClassBody | Part::DeviceBody | Part::ProgramBody | Part::Block => &[Kind::LeftBrace],
        Part::Members | Part::Member => &[Kind::Field, Kind::Method, Kind::Constructor],
        Part::Registers | Part::Register => &[Kind::Register],
        Part::Entries | Part::Entry => &[Kind::Entry],
        Part::Key => &[Kind::Name, Kind::Number],
        Part::Handler | Part::ParameterList | Part::Typed => &[Kind::Name],
        Part::Initial | Part::Assigned => &[Kind::Assign],
        Part::Result | Part::SuperCall | Part::PlainResult => &[Kind::Colon],
        Part::Parameters
        | Part::TypeArguments
        | Part::Condition
        | Part::ForHeader
        | Part::Arguments => &[Kind::LeftParen],
        Part::MoreParameters | Part::MoreTypes | Part::MoreArguments => &[Kind::Comma],
        Part::Type | Part::TypeList => &[
            Kind::Name,
            Kind::Int,
            Kind::Bool,
            Kind::Char,
            Kind::Raw,
            Kind::LeftParen,
            Kind::Function,
        ],
        Part::Plain | Part::Atom | Part::New => &[
            Kind::Name,
            Kind::Int,
            Kind::Bool,
            Kind::Char,
            Kind::Raw,
            Kind::LeftParen,
        ],
        Part::Dimensions | Part::Index => &[Kind::LeftBracket],
        Part::OtherAtom => &[
            Kind::Int,
            Kind::Bool,
            Kind::Char,
            Kind::Raw,
            Kind::LeftParen,
        ],
        Part::Statements | Part::Statement => &[
            Kind::LeftBrace,
            Kind::Local,
            Kind::If,
            Kind::While,
            Kind::For,
            Kind::Return,
            Kind::Break,
            Kind::Continue,
            Kind::Minus,
            Kind::Not,
            Kind::Complement,
            Kind::New,
            Kind::Number,
            Kind::CharLiteral,
            Kind::StringLiteral,
            Kind::True,
            Kind::False,
            Kind::Null,
            Kind::This,
            Kind::Name,
            Kind::LeftParen,
        ],
        Part::Else => &[Kind::Else],
        Part::ElseArm => &[Kind::If, Kind::LeftBrace],
        Part::ForTest => &[Kind::Semicolon],
        Part::MaybeSimple
        | Part::MaybeExpression
        | Part::Simple
        | Part::Expression
        | Part::AndLevel
        | Part::EqualityLevel
        | Part::ComparisonLevel
        | Part::BitOrLevel
        | Part::BitXorLevel
        | Part::BitAndLevel
        | Part::ShiftLevel
        | Part::ConcatLevel
        | Part::SumLevel
        | Part::ProductLevel
        | Part::CastLevel
        | Part::Unary
        | Part::ArgumentList => &[
            Kind::Minus,
            Kind::Not,
            Kind::Complement,
            Kind::New,
            Kind::Number,
            Kind::CharLiteral,
            Kind::StringLiteral,
            Kind::True,
            Kind::False,
            Kind::Null,
            Kind::This,
            Kind::Name,
            Kind::LeftParen,
        ],
        Part::OrRest => &[Kind::OrOr],
        Part::AndRest => &[Kind::AndAnd],
        Part::EqualityRest => &[Kind::EqualEqual, Kind::NotEqual],
        Part::ComparisonRest => &[
            Kind::Less,
            Kind::LessEqual,
            Kind::Greater,
            Kind::GreaterEqual,
            Kind::Below,
        ],
        Part::BitOrRest => &[Kind::Or],
        Part::BitXorRest => &[Kind::Xor],
        Part::BitAndRest => &[Kind::And],
        Part::ShiftRest => &[Kind::ShiftLeft, Kind::ShiftRight],
        Part::ConcatRest => &[Kind::Concat],
        Part::SumRest => &[Kind::Plus, Kind::Minus],
        Part::ProductRest => &[Kind::Star, Kind::Slash, Kind::Percent],
        Part::CastRest => &[Kind::Cast],
        Part::Operators => &[Kind::Minus, Kind::Not, Kind::Complement],
        Part::Postfix => &[
            Kind::Number,
            Kind::CharLiteral,
            Kind::StringLiteral,
            Kind::True,
            Kind::False,
            Kind::Null,
            Kind::This,
            Kind::Name,
            Kind::LeftParen,
            Kind::New,
        ],
        Part::Suffixes => &[Kind::Dot, Kind::LeftBracket, Kind::LeftParen],
        Part::NewOfName => &[Kind::LeftParen, Kind::LeftBracket],
        Part::NewLevels => &[Kind::Dot, Kind::LeftParen, Kind::LeftBracket],
        Part::NewLevel => &[
            Kind::RightBracket,
            Kind::Minus,
            Kind::Not,
            Kind::Complement,
            Kind::New,
            Kind::Number,
            Kind::CharLiteral,
            Kind::StringLiteral,
            Kind::True,
            Kind::False,
            Kind::Null,
            Kind::This,
            Kind::Name,
            Kind::LeftParen,
        ],
        Part::Primary => &[
            Kind::Number,
            Kind::CharLiteral,
            Kind::StringLiteral,
            Kind::True,
            Kind::False,
            Kind::Null,
            Kind::This,
            Kind::Name,
            Kind::LeftParen,
        ],
    }
}
