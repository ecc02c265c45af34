//! Lexemes and comments as slices of their text.
ghost use Rattle.std.specs.Prelude.{◌≡◌, IfSome, IfNone, false};
ghost use Rattle.jsonc_text.specs.Lexemes.{is_punctuation};
ghost use Rattle.jsonc_scan.specs.Reads.{IsMark};

/// A token that is neither punctuation nor a string: it takes no memory.
#[derive(Clone, Copy)]
pub(crate) enum Lexeme<'a> {
    Word(&'a str),
    Boolean(bool),
    Number(&'a str),
    Null,
    CommentLine(&'a str),
    CommentBlock(&'a str),
}

/// A lexeme or comment, and the place after it.
#[derive(Clone, Copy)]
pub(crate) struct Read<'a> {
    pub lexeme: Lexeme<'a>,
    pub end: usize,
}

/// One of the punctuation characters.
#[derive(Clone, Copy)]
pub(crate) enum Mark {
    OpenBrace,
    CloseBrace,
    OpenBracket,
    CloseBracket,
    Comma,
    Colon,
}

/// The punctuation character that a byte is.
pub(crate) fn punctuation(byte: u8) -> Option<Mark>
    ensures found { IfSome result (IsMark byte) }
    ensures none { IfNone result (is_punctuation byte ≡ false) }
{
    match byte {
        b'{' => Some(Mark::OpenBrace),
        b'}' => Some(Mark::CloseBrace),
        b'[' => Some(Mark::OpenBracket),
        b']' => Some(Mark::CloseBracket),
        b',' => Some(Mark::Comma),
        b':' => Some(Mark::Colon),
        _ => None,
    }
}
