//! The tokens of a text (7), and the tables of reserved words and punctuators.

use js_value::{Place, Seq, Text};

/// A reserved word (7.6.1), with the future reserved words and the literals `null`, `true` and `false`.
#[derive(Clone, Copy, Debug, PartialEq, Eq)]
pub enum Keyword {
    Break,
    Case,
    Catch,
    Continue,
    Debugger,
    Default,
    Delete,
    Do,
    Else,
    Finally,
    For,
    Function,
    If,
    In,
    InstanceOf,
    New,
    Return,
    Switch,
    This,
    Throw,
    Try,
    TypeOf,
    Var,
    Void,
    While,
    With,
    Class,
    Const,
    Enum,
    Export,
    Extends,
    Import,
    Super,
    Null,
    True,
    False,
}

/// The reserved words with their spellings.
pub const KEYWORDS: [(&[u8], Keyword); 36] = [
    (b"break", Keyword::Break),
    (b"case", Keyword::Case),
    (b"catch", Keyword::Catch),
    (b"continue", Keyword::Continue),
    (b"debugger", Keyword::Debugger),
    (b"default", Keyword::Default),
    (b"delete", Keyword::Delete),
    (b"do", Keyword::Do),
    (b"else", Keyword::Else),
    (b"finally", Keyword::Finally),
    (b"for", Keyword::For),
    (b"function", Keyword::Function),
    (b"if", Keyword::If),
    (b"in", Keyword::In),
    (b"instanceof", Keyword::InstanceOf),
    (b"new", Keyword::New),
    (b"return", Keyword::Return),
    (b"switch", Keyword::Switch),
    (b"this", Keyword::This),
    (b"throw", Keyword::Throw),
    (b"try", Keyword::Try),
    (b"typeof", Keyword::TypeOf),
    (b"var", Keyword::Var),
    (b"void", Keyword::Void),
    (b"while", Keyword::While),
    (b"with", Keyword::With),
    (b"class", Keyword::Class),
    (b"const", Keyword::Const),
    (b"enum", Keyword::Enum),
    (b"export", Keyword::Export),
    (b"extends", Keyword::Extends),
    (b"import", Keyword::Import),
    (b"super", Keyword::Super),
    (b"null", Keyword::Null),
    (b"true", Keyword::True),
    (b"false", Keyword::False),
];

/// A punctuator (7.7). The names are those of the operators, where a punctuator has one meaning alone.
#[derive(Clone, Copy, Debug, PartialEq, Eq)]
pub enum Punctuator {
    LeftBrace,
    RightBrace,
    LeftParenthesis,
    RightParenthesis,
    LeftBracket,
    RightBracket,
    Dot,
    Semicolon,
    Comma,
    Less,
    Greater,
    LessEqual,
    GreaterEqual,
    Equal,
    NotEqual,
    /// `===`
    Same,
    /// `!==`
    NotSame,
    Plus,
    Minus,
    Star,
    Slash,
    Percent,
    PlusPlus,
    MinusMinus,
    /// `<<`
    Shl,
    /// `>>`
    Sar,
    /// `>>>`
    Shr,
    BitAnd,
    BitOr,
    BitXor,
    Not,
    /// `~`
    BitNot,
    And,
    Or,
    Question,
    Colon,
    Assign,
    PlusAssign,
    MinusAssign,
    StarAssign,
    SlashAssign,
    PercentAssign,
    ShlAssign,
    SarAssign,
    ShrAssign,
    BitAndAssign,
    BitOrAssign,
    BitXorAssign,
}

/// The punctuators with their spellings.
pub const PUNCTUATORS: [(&[u8], Punctuator); 48] = [
    (b"{", Punctuator::LeftBrace),
    (b"}", Punctuator::RightBrace),
    (b"(", Punctuator::LeftParenthesis),
    (b")", Punctuator::RightParenthesis),
    (b"[", Punctuator::LeftBracket),
    (b"]", Punctuator::RightBracket),
    (b".", Punctuator::Dot),
    (b";", Punctuator::Semicolon),
    (b",", Punctuator::Comma),
    (b"<", Punctuator::Less),
    (b">", Punctuator::Greater),
    (b"<=", Punctuator::LessEqual),
    (b">=", Punctuator::GreaterEqual),
    (b"==", Punctuator::Equal),
    (b"!=", Punctuator::NotEqual),
    (b"===", Punctuator::Same),
    (b"!==", Punctuator::NotSame),
    (b"+", Punctuator::Plus),
    (b"-", Punctuator::Minus),
    (b"*", Punctuator::Star),
    (b"/", Punctuator::Slash),
    (b"%", Punctuator::Percent),
    (b"++", Punctuator::PlusPlus),
    (b"--", Punctuator::MinusMinus),
    (b"<<", Punctuator::Shl),
    (b">>", Punctuator::Sar),
    (b">>>", Punctuator::Shr),
    (b"&", Punctuator::BitAnd),
    (b"|", Punctuator::BitOr),
    (b"^", Punctuator::BitXor),
    (b"!", Punctuator::Not),
    (b"~", Punctuator::BitNot),
    (b"&&", Punctuator::And),
    (b"||", Punctuator::Or),
    (b"?", Punctuator::Question),
    (b":", Punctuator::Colon),
    (b"=", Punctuator::Assign),
    (b"+=", Punctuator::PlusAssign),
    (b"-=", Punctuator::MinusAssign),
    (b"*=", Punctuator::StarAssign),
    (b"/=", Punctuator::SlashAssign),
    (b"%=", Punctuator::PercentAssign),
    (b"<<=", Punctuator::ShlAssign),
    (b">>=", Punctuator::SarAssign),
    (b">>>=", Punctuator::ShrAssign),
    (b"&=", Punctuator::BitAndAssign),
    (b"|=", Punctuator::BitOrAssign),
    (b"^=", Punctuator::BitXorAssign),
];

/// What a token is.
#[derive(Debug, Drop)]
pub enum TokenForm {
    /// An identifier name that is no reserved word (7.6).
    Name(Text),
    Reserved(Keyword),
    /// A whole number from 0 to 2^53 - 1 (7.8.3).
    Number(i64),
    /// The value of a string literal (7.8.4).
    Str(Text),
    Punctuator(Punctuator),
}

/// What a text is made of (7): white space, line ends and tokens. A comment is one of the first two.
#[derive(Debug, Drop)]
pub enum InputElement {
    WhiteSpace,
    LineEnd,
    Token(TokenForm),
}

/// A token with its place in the UTF-8 text.
#[derive(Debug, Drop)]
pub struct Token {
    /// Its first byte.
    pub at: Place,
    /// The byte behind its last one.
    pub end: Place,
    /// A line end stands between it and the token before it or the beginning of the text.
    pub line_before: bool,
    pub form: TokenForm,
}

/// The tokens of a text in order.
#[derive(Debug, Drop)]
pub struct Tokens {
    pub items: Seq<Token>,
    /// The length of the text in bytes.
    pub end: Place,
}
