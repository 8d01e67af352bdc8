// The reserved words and the signs, with their spellings.
ghost use Rattle.std.specs.Prelude.{◌≡◌, map};
ghost use Rattle.vg_syntax.specs.Spellings.{kind_spelled, reserved_words, double_signs, single_signs};
ghost use Rattle.vg_scan.specs.Tables.{spelling};

use vg_syntax::Kind;

// A spelling and what it spells.
struct Spelled {
    text: &'static [u8],
    kind: Kind,
}

// The words that are no names.
static RESERVED_WORDS: [Spelled; 30] = [
    Spelled {
        text: b"bool",
        kind: Kind::Bool,
    },
    Spelled {
        text: b"break",
        kind: Kind::Break,
    },
    Spelled {
        text: b"char",
        kind: Kind::Char,
    },
    Spelled {
        text: b"class",
        kind: Kind::Class,
    },
    Spelled {
        text: b"component",
        kind: Kind::Component,
    },
    Spelled {
        text: b"constructor",
        kind: Kind::Constructor,
    },
    Spelled {
        text: b"continue",
        kind: Kind::Continue,
    },
    Spelled {
        text: b"device",
        kind: Kind::Device,
    },
    Spelled {
        text: b"else",
        kind: Kind::Else,
    },
    Spelled {
        text: b"entry",
        kind: Kind::Entry,
    },
    Spelled {
        text: b"extends",
        kind: Kind::Extends,
    },
    Spelled {
        text: b"false",
        kind: Kind::False,
    },
    Spelled {
        text: b"field",
        kind: Kind::Field,
    },
    Spelled {
        text: b"for",
        kind: Kind::For,
    },
    Spelled {
        text: b"function",
        kind: Kind::Function,
    },
    Spelled {
        text: b"idle",
        kind: Kind::Idle,
    },
    Spelled {
        text: b"if",
        kind: Kind::If,
    },
    Spelled {
        text: b"int",
        kind: Kind::Int,
    },
    Spelled {
        text: b"local",
        kind: Kind::Local,
    },
    Spelled {
        text: b"method",
        kind: Kind::Method,
    },
    Spelled {
        text: b"new",
        kind: Kind::New,
    },
    Spelled {
        text: b"null",
        kind: Kind::Null,
    },
    Spelled {
        text: b"program",
        kind: Kind::Program,
    },
    Spelled {
        text: b"raw",
        kind: Kind::Raw,
    },
    Spelled {
        text: b"register",
        kind: Kind::Register,
    },
    Spelled {
        text: b"return",
        kind: Kind::Return,
    },
    Spelled {
        text: b"super",
        kind: Kind::Super,
    },
    Spelled {
        text: b"this",
        kind: Kind::This,
    },
    Spelled {
        text: b"true",
        kind: Kind::True,
    },
    Spelled {
        text: b"while",
        kind: Kind::While,
    },
];

// The signs of two bytes.
static DOUBLE_SIGNS: [Spelled; 10] = [
    Spelled {
        text: b"||",
        kind: Kind::OrOr,
    },
    Spelled {
        text: b"&&",
        kind: Kind::AndAnd,
    },
    Spelled {
        text: b"==",
        kind: Kind::EqualEqual,
    },
    Spelled {
        text: b"!=",
        kind: Kind::NotEqual,
    },
    Spelled {
        text: b"<=",
        kind: Kind::LessEqual,
    },
    Spelled {
        text: b">=",
        kind: Kind::GreaterEqual,
    },
    Spelled {
        text: b"<:",
        kind: Kind::Below,
    },
    Spelled {
        text: b"<<",
        kind: Kind::ShiftLeft,
    },
    Spelled {
        text: b">>",
        kind: Kind::ShiftRight,
    },
    Spelled {
        text: b"::",
        kind: Kind::Cast,
    },
];

// The signs of one byte.
static SINGLE_SIGNS: [Spelled; 24] = [
    Spelled {
        text: b"{",
        kind: Kind::LeftBrace,
    },
    Spelled {
        text: b"}",
        kind: Kind::RightBrace,
    },
    Spelled {
        text: b"(",
        kind: Kind::LeftParen,
    },
    Spelled {
        text: b")",
        kind: Kind::RightParen,
    },
    Spelled {
        text: b"[",
        kind: Kind::LeftBracket,
    },
    Spelled {
        text: b"]",
        kind: Kind::RightBracket,
    },
    Spelled {
        text: b";",
        kind: Kind::Semicolon,
    },
    Spelled {
        text: b":",
        kind: Kind::Colon,
    },
    Spelled {
        text: b",",
        kind: Kind::Comma,
    },
    Spelled {
        text: b".",
        kind: Kind::Dot,
    },
    Spelled {
        text: b"=",
        kind: Kind::Assign,
    },
    Spelled {
        text: b"<",
        kind: Kind::Less,
    },
    Spelled {
        text: b">",
        kind: Kind::Greater,
    },
    Spelled {
        text: b"|",
        kind: Kind::Or,
    },
    Spelled {
        text: b"^",
        kind: Kind::Xor,
    },
    Spelled {
        text: b"&",
        kind: Kind::And,
    },
    Spelled {
        text: b"#",
        kind: Kind::Concat,
    },
    Spelled {
        text: b"+",
        kind: Kind::Plus,
    },
    Spelled {
        text: b"-",
        kind: Kind::Minus,
    },
    Spelled {
        text: b"*",
        kind: Kind::Star,
    },
    Spelled {
        text: b"/",
        kind: Kind::Slash,
    },
    Spelled {
        text: b"%",
        kind: Kind::Percent,
    },
    Spelled {
        text: b"!",
        kind: Kind::Not,
    },
    Spelled {
        text: b"~",
        kind: Kind::Complement,
    },
];

/// The kind of a reserved word, and `None` for any other text.
pub(crate) fn reserved_kind(text: &[u8]) -> Option<Kind>
    ensures { result ≡ kind_spelled text.now reserved_words }
{
    kind_spelled(&RESERVED_WORDS, text)
}

/// The kind of a sign of two bytes, and `None` for any other text.
pub(crate) fn double_sign_kind(text: &[u8]) -> Option<Kind>
    ensures { result ≡ kind_spelled text.now double_signs }
{
    kind_spelled(&DOUBLE_SIGNS, text)
}

/// The kind of a sign of one byte, and `None` for any other text.
pub(crate) fn single_sign_kind(text: &[u8]) -> Option<Kind>
    ensures { result ≡ kind_spelled text.now single_signs }
{
    kind_spelled(&SINGLE_SIGNS, text)
}

// What a text spells, by a table.
fn kind_spelled(table: &[Spelled], text: &[u8]) -> Option<Kind>
    ensures { result ≡ kind_spelled text.now (map spelling table.now) }
{
    for entry in table {
        if entry.text == text {
            return Some(entry.kind);
        }
    }
    None
}
