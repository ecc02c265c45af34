//! Names as faults show them: in double quotes, and on one line whatever is in them.

ghost use Rattle.std.specs.Prelude.{◌≡◌, ◌<◌, false, chars, encode_utf8_all};
ghost use Rattle.std.specs.Fmt.{WritesOnOk, WritesStyledOnOk, digit_glyph};
ghost use Rattle.jsonc_text.specs.Spelling.{short_escape_of};
ghost use Rattle.jsonc_parser.specs.patch.Quoting.{code_escape, is_unseen, quoted, repeated_name_text, shown_char};

use std::fmt;

// The character that is shown after a backslash in place of this one, where JSON has such an escape.
fn short_escape(c: char) -> Option<char>
    ensures { result ≡ short_escape_of c }
{
    match c {
        '"' => Some('"'),
        '\\' => Some('\\'),
        '\u{8}' => Some('b'),
        '\u{c}' => Some('f'),
        '\n' => Some('n'),
        '\r' => Some('r'),
        '\t' => Some('t'),
        _ => None,
    }
}

// Whether a character is shown by its code: a control character, a separator of lines, or a mark of direction.
fn is_unseen(c: char) -> bool
    ensures { result ≡ is_unseen c }
{
    c.is_control()
        || c == '\u{61C}'
        || ('\u{200E}'..='\u{200F}').contains(&c)
        || ('\u{2028}'..='\u{202E}').contains(&c)
        || ('\u{2066}'..='\u{2069}').contains(&c)
}

// A hex digit.
fn hex_digit(value: u32) -> char
    requires { value < 16 }
    ensures { result ≡ digit_glyph false value }
{
    if value < 10 {
        (b'0' + value as u8) as char
    } else {
        (b'a' + (value - 10) as u8) as char
    }
}

// Writes the escape of a character's code, of at most four hex digits.
fn write_code<W: fmt::Write>(code: u32, f: &mut fmt::Formatter<W>) -> fmt::Result
    requires { code < 65536 }
    ensures { WritesStyledOnOk W.write_str_gives f.old result (encode_utf8_all (code_escape code)) f.new }
{
    f.write_char('\\')?;
    f.write_char('u')?;
    f.write_char(hex_digit(code / 4096))?;
    f.write_char(hex_digit(code / 256 % 16))?;
    f.write_char(hex_digit(code / 16 % 16))?;
    f.write_char(hex_digit(code % 16))
}

// Writes what is shown for a character.
fn write_shown<W: fmt::Write>(c: char, f: &mut fmt::Formatter<W>) -> fmt::Result
    ensures { WritesStyledOnOk W.write_str_gives f.old result (encode_utf8_all (shown_char c)) f.new }
{
    if let Some(escape) = short_escape(c) {
        f.write_char('\\')?;
        return f.write_char(escape);
    }
    if is_unseen(c) {
        return write_code(c as u32, f);
    }
    f.write_char(c)
}

// Writes a text in double quotes, as a JSON string escapes it. Control characters, separators of lines and marks of
// direction are shown by their codes.
fn write_quoted<W: fmt::Write>(text: &str, f: &mut fmt::Formatter<W>) -> fmt::Result
    ensures { WritesStyledOnOk W.write_str_gives f.old result (quoted text.now) f.new }
{
    f.write_char('"')?;
    for c in text.chars() {
        write_shown(c, f)?;
    }
    f.write_str("\"")
}

/// Writes that a name occurs more than once, and the name in double quotes, in one line whatever is in it.
#[doc(hidden)]
pub fn write_repeated_name<W: fmt::Write>(name: &str, f: &mut fmt::Formatter<W>) -> fmt::Result
    ensures writes { WritesOnOk W.write_str_gives f.old result (repeated_name_text name.now) f.new }
    ensures styled { WritesStyledOnOk W.write_str_gives f.old result (repeated_name_text name.now) f.new }
{
    f.write_str("Name stands twice: ")?;
    write_quoted(name, f)
}
