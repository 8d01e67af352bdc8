// The grammar as the code goes by it: the alternatives of each part.
ghost use Rattle.std.specs.Prelude.{◌≡◌};
ghost use Rattle.std.specs.Option.{option_map};
ghost use Rattle.vg_syntax.specs.Grammar.{rules};
ghost use Rattle.vg_syntax.specs.Parses.{nth};

use vg_syntax::Symbol::{Sign, Use};
use vg_syntax::{Kind, Part, Symbol};

/// The symbols of an alternative of a part, by its number from 0: None where the part has no alternative of that number.
pub fn alternative(part: Part, index: usize) -> Option<&'static [Symbol]>
    ensures { option_map (λ s. s.now) result ≡ nth (rules part) index }
{
    match part {
        Part::Text => match index {
            0 => Some(&[Use(Part::Declaration), Use(Part::Declarations)]),
            _ => None,
        },
        Part::Declarations => match index {
            0 => Some(&[Use(Part::Declaration), Use(Part::Declarations)]),
            1 => Some(&[]),
            _ => None,
        },
        Part::Declaration => match index {
            0 => Some(&[
                Sign(Kind::Class),
                Sign(Kind::Name),
                Use(Part::Extends),
                Use(Part::ClassBody),
            ]),
            1 => Some(&[
                Sign(Kind::Component),
                Sign(Kind::Name),
                Use(Part::ClassBody),
            ]),
            2 => Some(&[Sign(Kind::Device), Sign(Kind::Name), Use(Part::DeviceBody)]),
            3 => Some(&[
                Sign(Kind::Program),
                Sign(Kind::Name),
                Use(Part::ProgramBody),
            ]),
            _ => None,
        },
        Part::Extends => match index {
            0 => Some(&[Sign(Kind::Extends), Sign(Kind::Name)]),
            1 => Some(&[]),
            _ => None,
        },
        Part::ClassBody => match index {
            0 => Some(&[
                Sign(Kind::LeftBrace),
                Use(Part::Members),
                Sign(Kind::RightBrace),
            ]),
            _ => None,
        },
        Part::Members => match index {
            0 => Some(&[Use(Part::Member), Use(Part::Members)]),
            1 => Some(&[]),
            _ => None,
        },
        Part::DeviceBody => match index {
            0 => Some(&[
                Sign(Kind::LeftBrace),
                Use(Part::Registers),
                Sign(Kind::RightBrace),
            ]),
            _ => None,
        },
        Part::Registers => match index {
            0 => Some(&[Use(Part::Register), Use(Part::Registers)]),
            1 => Some(&[]),
            _ => None,
        },
        Part::Register => match index {
            0 => Some(&[
                Sign(Kind::Register),
                Sign(Kind::Name),
                Sign(Kind::Assign),
                Sign(Kind::Number),
                Sign(Kind::Semicolon),
            ]),
            _ => None,
        },
        Part::ProgramBody => match index {
            0 => Some(&[
                Sign(Kind::LeftBrace),
                Use(Part::Entries),
                Sign(Kind::RightBrace),
            ]),
            _ => None,
        },
        Part::Entries => match index {
            0 => Some(&[Use(Part::Entry), Use(Part::Entries)]),
            1 => Some(&[]),
            _ => None,
        },
        Part::Entry => match index {
            0 => Some(&[
                Sign(Kind::Entry),
                Use(Part::Key),
                Sign(Kind::Assign),
                Use(Part::Handler),
                Sign(Kind::Semicolon),
            ]),
            _ => None,
        },
        Part::Key => match index {
            0 => Some(&[Sign(Kind::Name)]),
            1 => Some(&[Sign(Kind::Number)]),
            _ => None,
        },
        Part::Handler => match index {
            0 => Some(&[Sign(Kind::Name), Sign(Kind::Dot), Sign(Kind::Name)]),
            _ => None,
        },
        Part::Member => match index {
            0 => Some(&[
                Sign(Kind::Field),
                Use(Part::Typed),
                Use(Part::Initial),
                Sign(Kind::Semicolon),
            ]),
            1 => Some(&[
                Sign(Kind::Method),
                Sign(Kind::Name),
                Use(Part::Parameters),
                Use(Part::Result),
                Use(Part::Block),
            ]),
            2 => Some(&[
                Sign(Kind::Constructor),
                Use(Part::Parameters),
                Use(Part::SuperCall),
                Use(Part::Block),
            ]),
            _ => None,
        },
        Part::Initial => match index {
            0 => Some(&[Sign(Kind::Assign), Use(Part::Expression)]),
            1 => Some(&[]),
            _ => None,
        },
        Part::Result => match index {
            0 => Some(&[Sign(Kind::Colon), Use(Part::Type)]),
            1 => Some(&[]),
            _ => None,
        },
        Part::SuperCall => match index {
            0 => Some(&[Sign(Kind::Colon), Sign(Kind::Super), Use(Part::Arguments)]),
            1 => Some(&[]),
            _ => None,
        },
        Part::Parameters => match index {
            0 => Some(&[
                Sign(Kind::LeftParen),
                Use(Part::ParameterList),
                Sign(Kind::RightParen),
            ]),
            _ => None,
        },
        Part::ParameterList => match index {
            0 => Some(&[Use(Part::Typed), Use(Part::MoreParameters)]),
            1 => Some(&[]),
            _ => None,
        },
        Part::MoreParameters => match index {
            0 => Some(&[
                Sign(Kind::Comma),
                Use(Part::Typed),
                Use(Part::MoreParameters),
            ]),
            1 => Some(&[]),
            _ => None,
        },
        Part::Typed => match index {
            0 => Some(&[Sign(Kind::Name), Sign(Kind::Colon), Use(Part::Type)]),
            _ => None,
        },
        Part::Type => match index {
            0 => Some(&[Use(Part::Plain)]),
            1 => Some(&[
                Sign(Kind::Function),
                Use(Part::TypeArguments),
                Use(Part::PlainResult),
            ]),
            _ => None,
        },
        Part::TypeArguments => match index {
            0 => Some(&[
                Sign(Kind::LeftParen),
                Use(Part::TypeList),
                Sign(Kind::RightParen),
            ]),
            _ => None,
        },
        Part::TypeList => match index {
            0 => Some(&[Use(Part::Type), Use(Part::MoreTypes)]),
            1 => Some(&[]),
            _ => None,
        },
        Part::MoreTypes => match index {
            0 => Some(&[Sign(Kind::Comma), Use(Part::Type), Use(Part::MoreTypes)]),
            1 => Some(&[]),
            _ => None,
        },
        Part::PlainResult => match index {
            0 => Some(&[Sign(Kind::Colon), Use(Part::Plain)]),
            1 => Some(&[]),
            _ => None,
        },
        Part::Plain => match index {
            0 => Some(&[Use(Part::Atom), Use(Part::Dimensions)]),
            _ => None,
        },
        Part::Dimensions => match index {
            0 => Some(&[
                Sign(Kind::LeftBracket),
                Sign(Kind::RightBracket),
                Use(Part::Dimensions),
            ]),
            1 => Some(&[]),
            _ => None,
        },
        Part::Atom => match index {
            0 => Some(&[Sign(Kind::Name)]),
            1 => Some(&[Use(Part::OtherAtom)]),
            _ => None,
        },
        Part::OtherAtom => match index {
            0 => Some(&[Sign(Kind::Int)]),
            1 => Some(&[Sign(Kind::Bool)]),
            2 => Some(&[Sign(Kind::Char)]),
            3 => Some(&[Sign(Kind::Raw), Sign(Kind::Dot), Sign(Kind::Number)]),
            4 => Some(&[
                Sign(Kind::LeftParen),
                Use(Part::Type),
                Sign(Kind::RightParen),
            ]),
            _ => None,
        },
        Part::Block => match index {
            0 => Some(&[
                Sign(Kind::LeftBrace),
                Use(Part::Statements),
                Sign(Kind::RightBrace),
            ]),
            _ => None,
        },
        Part::Statements => match index {
            0 => Some(&[Use(Part::Statement), Use(Part::Statements)]),
            1 => Some(&[]),
            _ => None,
        },
        Part::Statement => match index {
            0 => Some(&[Use(Part::Block)]),
            1 => Some(&[
                Sign(Kind::Local),
                Use(Part::Typed),
                Use(Part::Initial),
                Sign(Kind::Semicolon),
            ]),
            2 => Some(&[
                Sign(Kind::If),
                Use(Part::Condition),
                Use(Part::Block),
                Use(Part::Else),
            ]),
            3 => Some(&[Sign(Kind::While), Use(Part::Condition), Use(Part::Block)]),
            4 => Some(&[Sign(Kind::For), Use(Part::ForHeader), Use(Part::Block)]),
            5 => Some(&[
                Sign(Kind::Return),
                Use(Part::MaybeExpression),
                Sign(Kind::Semicolon),
            ]),
            6 => Some(&[Sign(Kind::Break), Sign(Kind::Semicolon)]),
            7 => Some(&[Sign(Kind::Continue), Sign(Kind::Semicolon)]),
            8 => Some(&[Use(Part::Simple), Sign(Kind::Semicolon)]),
            _ => None,
        },
        Part::Condition => match index {
            0 => Some(&[
                Sign(Kind::LeftParen),
                Use(Part::Expression),
                Sign(Kind::RightParen),
            ]),
            _ => None,
        },
        Part::Else => match index {
            0 => Some(&[Sign(Kind::Else), Use(Part::ElseArm)]),
            1 => Some(&[]),
            _ => None,
        },
        Part::ElseArm => match index {
            0 => Some(&[
                Sign(Kind::If),
                Use(Part::Condition),
                Use(Part::Block),
                Use(Part::Else),
            ]),
            1 => Some(&[Use(Part::Block)]),
            _ => None,
        },
        Part::ForHeader => match index {
            0 => Some(&[
                Sign(Kind::LeftParen),
                Use(Part::MaybeSimple),
                Use(Part::ForTest),
                Use(Part::MaybeSimple),
                Sign(Kind::RightParen),
            ]),
            _ => None,
        },
        Part::ForTest => match index {
            0 => Some(&[
                Sign(Kind::Semicolon),
                Use(Part::Expression),
                Sign(Kind::Semicolon),
            ]),
            _ => None,
        },
        Part::MaybeSimple => match index {
            0 => Some(&[Use(Part::Simple)]),
            1 => Some(&[]),
            _ => None,
        },
        Part::MaybeExpression => match index {
            0 => Some(&[Use(Part::Expression)]),
            1 => Some(&[]),
            _ => None,
        },
        Part::Simple => match index {
            0 => Some(&[Use(Part::Expression), Use(Part::Assigned)]),
            _ => None,
        },
        Part::Assigned => match index {
            0 => Some(&[Sign(Kind::Assign), Use(Part::Expression)]),
            1 => Some(&[]),
            _ => None,
        },
        Part::Expression => match index {
            0 => Some(&[Use(Part::AndLevel), Use(Part::OrRest)]),
            _ => None,
        },
        Part::OrRest => match index {
            0 => Some(&[Sign(Kind::OrOr), Use(Part::AndLevel), Use(Part::OrRest)]),
            1 => Some(&[]),
            _ => None,
        },
        Part::AndLevel => match index {
            0 => Some(&[Use(Part::EqualityLevel), Use(Part::AndRest)]),
            _ => None,
        },
        Part::AndRest => match index {
            0 => Some(&[
                Sign(Kind::AndAnd),
                Use(Part::EqualityLevel),
                Use(Part::AndRest),
            ]),
            1 => Some(&[]),
            _ => None,
        },
        Part::EqualityLevel => match index {
            0 => Some(&[Use(Part::ComparisonLevel), Use(Part::EqualityRest)]),
            _ => None,
        },
        Part::EqualityRest => match index {
            0 => Some(&[
                Sign(Kind::EqualEqual),
                Use(Part::ComparisonLevel),
                Use(Part::EqualityRest),
            ]),
            1 => Some(&[
                Sign(Kind::NotEqual),
                Use(Part::ComparisonLevel),
                Use(Part::EqualityRest),
            ]),
            2 => Some(&[]),
            _ => None,
        },
        Part::ComparisonLevel => match index {
            0 => Some(&[Use(Part::BitOrLevel), Use(Part::ComparisonRest)]),
            _ => None,
        },
        Part::ComparisonRest => match index {
            0 => Some(&[
                Sign(Kind::Less),
                Use(Part::BitOrLevel),
                Use(Part::ComparisonRest),
            ]),
            1 => Some(&[
                Sign(Kind::LessEqual),
                Use(Part::BitOrLevel),
                Use(Part::ComparisonRest),
            ]),
            2 => Some(&[
                Sign(Kind::Greater),
                Use(Part::BitOrLevel),
                Use(Part::ComparisonRest),
            ]),
            3 => Some(&[
                Sign(Kind::GreaterEqual),
                Use(Part::BitOrLevel),
                Use(Part::ComparisonRest),
            ]),
            4 => Some(&[
                Sign(Kind::Below),
                Use(Part::Type),
                Use(Part::ComparisonRest),
            ]),
            5 => Some(&[]),
            _ => None,
        },
        Part::BitOrLevel => match index {
            0 => Some(&[Use(Part::BitXorLevel), Use(Part::BitOrRest)]),
            _ => None,
        },
        Part::BitOrRest => match index {
            0 => Some(&[Sign(Kind::Or), Use(Part::BitXorLevel), Use(Part::BitOrRest)]),
            1 => Some(&[]),
            _ => None,
        },
        Part::BitXorLevel => match index {
            0 => Some(&[Use(Part::BitAndLevel), Use(Part::BitXorRest)]),
            _ => None,
        },
        Part::BitXorRest => match index {
            0 => Some(&[
                Sign(Kind::Xor),
                Use(Part::BitAndLevel),
                Use(Part::BitXorRest),
            ]),
            1 => Some(&[]),
            _ => None,
        },
        Part::BitAndLevel => match index {
            0 => Some(&[Use(Part::ShiftLevel), Use(Part::BitAndRest)]),
            _ => None,
        },
        Part::BitAndRest => match index {
            0 => Some(&[
                Sign(Kind::And),
                Use(Part::ShiftLevel),
                Use(Part::BitAndRest),
            ]),
            1 => Some(&[]),
            _ => None,
        },
        Part::ShiftLevel => match index {
            0 => Some(&[Use(Part::ConcatLevel), Use(Part::ShiftRest)]),
            _ => None,
        },
        Part::ShiftRest => match index {
            0 => Some(&[
                Sign(Kind::ShiftLeft),
                Use(Part::ConcatLevel),
                Use(Part::ShiftRest),
            ]),
            1 => Some(&[
                Sign(Kind::ShiftRight),
                Use(Part::ConcatLevel),
                Use(Part::ShiftRest),
            ]),
            2 => Some(&[]),
            _ => None,
        },
        Part::ConcatLevel => match index {
            0 => Some(&[Use(Part::SumLevel), Use(Part::ConcatRest)]),
            _ => None,
        },
        Part::ConcatRest => match index {
            0 => Some(&[
                Sign(Kind::Concat),
                Use(Part::SumLevel),
                Use(Part::ConcatRest),
            ]),
            1 => Some(&[]),
            _ => None,
        },
        Part::SumLevel => match index {
            0 => Some(&[Use(Part::ProductLevel), Use(Part::SumRest)]),
            _ => None,
        },
        Part::SumRest => match index {
            0 => Some(&[
                Sign(Kind::Plus),
                Use(Part::ProductLevel),
                Use(Part::SumRest),
            ]),
            1 => Some(&[
                Sign(Kind::Minus),
                Use(Part::ProductLevel),
                Use(Part::SumRest),
            ]),
            2 => Some(&[]),
            _ => None,
        },
        Part::ProductLevel => match index {
            0 => Some(&[Use(Part::CastLevel), Use(Part::ProductRest)]),
            _ => None,
        },
        Part::ProductRest => match index {
            0 => Some(&[
                Sign(Kind::Star),
                Use(Part::CastLevel),
                Use(Part::ProductRest),
            ]),
            1 => Some(&[
                Sign(Kind::Slash),
                Use(Part::CastLevel),
                Use(Part::ProductRest),
            ]),
            2 => Some(&[
                Sign(Kind::Percent),
                Use(Part::CastLevel),
                Use(Part::ProductRest),
            ]),
            3 => Some(&[]),
            _ => None,
        },
        Part::CastLevel => match index {
            0 => Some(&[Use(Part::Unary), Use(Part::CastRest)]),
            _ => None,
        },
        Part::CastRest => match index {
            0 => Some(&[Sign(Kind::Cast), Use(Part::Type), Use(Part::CastRest)]),
            1 => Some(&[]),
            _ => None,
        },
        Part::Unary => match index {
            0 => Some(&[Sign(Kind::Minus), Use(Part::Operators), Use(Part::Postfix)]),
            1 => Some(&[Sign(Kind::Not), Use(Part::Operators), Use(Part::Postfix)]),
            2 => Some(&[
                Sign(Kind::Complement),
                Use(Part::Operators),
                Use(Part::Postfix),
            ]),
            3 => Some(&[Use(Part::Postfix)]),
            _ => None,
        },
        Part::Operators => match index {
            0 => Some(&[Sign(Kind::Minus), Use(Part::Operators)]),
            1 => Some(&[Sign(Kind::Not), Use(Part::Operators)]),
            2 => Some(&[Sign(Kind::Complement), Use(Part::Operators)]),
            3 => Some(&[]),
            _ => None,
        },
        Part::Postfix => match index {
            0 => Some(&[Use(Part::Primary), Use(Part::Suffixes)]),
            1 => Some(&[Sign(Kind::New), Use(Part::New)]),
            _ => None,
        },
        Part::Suffixes => match index {
            0 => Some(&[Sign(Kind::Dot), Sign(Kind::Name), Use(Part::Suffixes)]),
            1 => Some(&[Use(Part::Index), Use(Part::Suffixes)]),
            2 => Some(&[Use(Part::Arguments), Use(Part::Suffixes)]),
            3 => Some(&[]),
            _ => None,
        },
        Part::Index => match index {
            0 => Some(&[
                Sign(Kind::LeftBracket),
                Use(Part::Expression),
                Sign(Kind::RightBracket),
            ]),
            _ => None,
        },
        Part::Arguments => match index {
            0 => Some(&[
                Sign(Kind::LeftParen),
                Use(Part::ArgumentList),
                Sign(Kind::RightParen),
            ]),
            _ => None,
        },
        Part::ArgumentList => match index {
            0 => Some(&[Use(Part::Expression), Use(Part::MoreArguments)]),
            1 => Some(&[]),
            _ => None,
        },
        Part::MoreArguments => match index {
            0 => Some(&[
                Sign(Kind::Comma),
                Use(Part::Expression),
                Use(Part::MoreArguments),
            ]),
            1 => Some(&[]),
            _ => None,
        },
        Part::New => match index {
            0 => Some(&[Sign(Kind::Name), Use(Part::NewOfName)]),
            1 => Some(&[Use(Part::OtherAtom), Use(Part::Index), Use(Part::NewLevels)]),
            _ => None,
        },
        Part::NewOfName => match index {
            0 => Some(&[Use(Part::Arguments), Use(Part::Suffixes)]),
            1 => Some(&[Use(Part::Index), Use(Part::NewLevels)]),
            _ => None,
        },
        Part::NewLevels => match index {
            0 => Some(&[Sign(Kind::Dot), Sign(Kind::Name), Use(Part::Suffixes)]),
            1 => Some(&[Use(Part::Arguments), Use(Part::Suffixes)]),
            2 => Some(&[Sign(Kind::LeftBracket), Use(Part::NewLevel)]),
            3 => Some(&[]),
            _ => None,
        },
        Part::NewLevel => match index {
            0 => Some(&[Sign(Kind::RightBracket), Use(Part::NewLevels)]),
            1 => Some(&[
                Use(Part::Expression),
                Sign(Kind::RightBracket),
                Use(Part::Suffixes),
            ]),
            _ => None,
        },
        Part::Primary => match index {
            0 => Some(&[Sign(Kind::Number)]),
            1 => Some(&[Sign(Kind::CharLiteral)]),
            2 => Some(&[Sign(Kind::StringLiteral)]),
            3 => Some(&[Sign(Kind::True)]),
            4 => Some(&[Sign(Kind::False)]),
            5 => Some(&[Sign(Kind::Null)]),
            6 => Some(&[Sign(Kind::This)]),
            7 => Some(&[Sign(Kind::Name)]),
            8 => Some(&[
                Sign(Kind::LeftParen),
                Use(Part::Expression),
                Sign(Kind::RightParen),
            ]),
            _ => None,
        },
    }
}
