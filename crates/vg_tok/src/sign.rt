ghost use Rattle.std.specs.Prelude.{◌≡◌};
ghost use Rattle.vg_tok.specs.Lexing.{entry_of};
ghost use Rattle.vg_tok.specs.Tables.{all_signs};

use crate::table::entry_of;

/// A sign of the description language, named by its characters.
#[derive(Clone, Copy, Debug, PartialEq, Eq)]
pub enum Sign {
    /// `:=`
    ColonEqual,
    /// `->`
    Arrow,
    /// `..`
    DotDot,
    /// `*#`
    StarHash,
    /// `<<`
    LessLess,
    /// `>>`
    GreaterGreater,
    /// `<=`
    LessEqual,
    /// `>=`
    GreaterEqual,
    /// `!=`
    BangEqual,
    /// `{`
    OpenBrace,
    /// `}`
    CloseBrace,
    /// `(`
    OpenParenthesis,
    /// `)`
    CloseParenthesis,
    /// `[`
    OpenBracket,
    /// `]`
    CloseBracket,
    /// `<`
    Less,
    /// `>`
    Greater,
    /// `,`
    Comma,
    /// `:`
    Colon,
    /// `=`
    Equal,
    /// `+`
    Plus,
    /// `-`
    Minus,
    /// `*`
    Star,
    /// `/`
    Slash,
    /// `%`
    Percent,
    /// `&`
    Ampersand,
    /// `|`
    Bar,
    /// `^`
    Caret,
    /// `~`
    Tilde,
    /// `!`
    Bang,
}

/// Each sign with its spelling, those of two characters first.
const SIGNS: [(&[u8], Sign); 30] = [
    (b":=", Sign::ColonEqual),
    (b"->", Sign::Arrow),
    (b"..", Sign::DotDot),
    (b"*#", Sign::StarHash),
    (b"<<", Sign::LessLess),
    (b">>", Sign::GreaterGreater),
    (b"<=", Sign::LessEqual),
    (b">=", Sign::GreaterEqual),
    (b"!=", Sign::BangEqual),
    (b"{", Sign::OpenBrace),
    (b"}", Sign::CloseBrace),
    (b"(", Sign::OpenParenthesis),
    (b")", Sign::CloseParenthesis),
    (b"[", Sign::OpenBracket),
    (b"]", Sign::CloseBracket),
    (b"<", Sign::Less),
    (b">", Sign::Greater),
    (b",", Sign::Comma),
    (b":", Sign::Colon),
    (b"=", Sign::Equal),
    (b"+", Sign::Plus),
    (b"-", Sign::Minus),
    (b"*", Sign::Star),
    (b"/", Sign::Slash),
    (b"%", Sign::Percent),
    (b"&", Sign::Ampersand),
    (b"|", Sign::Bar),
    (b"^", Sign::Caret),
    (b"~", Sign::Tilde),
    (b"!", Sign::Bang),
];

/// The sign of this spelling.
pub(crate) fn sign_of(text: &[char]) -> Option<Sign>
    ensures { result ≡ entry_of all_signs text.now }
{
    entry_of(&SIGNS, text)
}
