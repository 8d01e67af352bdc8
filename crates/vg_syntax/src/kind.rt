// The kinds of tokens.

/// What a token is. Each reserved word and each sign is a kind of its own.
#[derive(Clone, Copy, Debug, PartialEq, Eq)]
pub enum Kind {
    /// A word that is not reserved.
    Name,
    /// A decimal number, or a hexadecimal one behind `0x`.
    Number,
    /// One element between single quotes.
    CharLiteral,
    /// Any number of elements between double quotes.
    StringLiteral,
    /// What begins no token, from there to the end of the text: a byte, a run that is no number, an open or wrong literal.
    Unknown,

    // The reserved words.
    Bool,
    Break,
    Char,
    Class,
    Component,
    Constructor,
    Continue,
    Device,
    Else,
    Entry,
    Extends,
    False,
    Field,
    For,
    Function,
    Idle,
    If,
    Int,
    Local,
    Method,
    New,
    Null,
    Program,
    Raw,
    Register,
    Return,
    Super,
    This,
    True,
    While,

    /// `{`
    LeftBrace,
    /// `}`
    RightBrace,
    /// `(`
    LeftParen,
    /// `)`
    RightParen,
    /// `[`
    LeftBracket,
    /// `]`
    RightBracket,
    /// `;`
    Semicolon,
    /// `:`
    Colon,
    /// `,`
    Comma,
    /// `.`
    Dot,
    /// `=`
    Assign,
    /// `||`
    OrOr,
    /// `&&`
    AndAnd,
    /// `==`
    EqualEqual,
    /// `!=`
    NotEqual,
    /// `<`
    Less,
    /// `<=`
    LessEqual,
    /// `>`
    Greater,
    /// `>=`
    GreaterEqual,
    /// `<:`
    Below,
    /// `|`
    Or,
    /// `^`
    Xor,
    /// `&`
    And,
    /// `<<`
    ShiftLeft,
    /// `>>`
    ShiftRight,
    /// `#`
    Concat,
    /// `+`
    Plus,
    /// `-`
    Minus,
    /// `*`
    Star,
    /// `/`
    Slash,
    /// `%`
    Percent,
    /// `::`
    Cast,
    /// `!`
    Not,
    /// `~`
    Complement,
}
