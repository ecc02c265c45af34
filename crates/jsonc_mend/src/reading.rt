//! Reading a text at any place. A place that is not on a boundary of characters has nothing after it.
use jsonc_text::chars::blanks_end;

/// What is from a place on.
pub(crate) fn rest(text: &str, place: usize) -> &str {
    match text.split_at_checked(place) {
        Some((_, rest)) => rest,
        None => "",
    }
}

/// What is between two places.
pub(crate) fn part(text: &str, start: usize, end: usize) -> &str {
    match text.split_at_checked(end) {
        Some((before, _)) => rest(before, start),
        None => "",
    }
}

/// The character at a place.
pub(crate) fn char_here(text: &str, place: usize) -> Option<char> {
    rest(text, place).chars().next()
}

/// Whether this character is at a place.
pub(crate) fn has(text: &str, place: usize, wanted: char) -> bool {
    match char_here(text, place) {
        Some(c) => c == wanted,
        None => false,
    }
}

/// Whether a character is at a place, and one of these.
pub(crate) fn has_any(text: &str, place: usize, wanted: &str) -> bool {
    match char_here(text, place) {
        Some(c) => wanted.contains(c),
        None => false,
    }
}

/// The character before a place.
pub(crate) fn char_before(text: &str, place: usize) -> Option<char> {
    let (before, _) = text.split_at_checked(place)?;
    before.chars().next_back()
}

/// The place after the character at a place, or the place itself where none is.
pub(crate) fn place_after(text: &str, place: usize) -> usize {
    match char_here(text, place) {
        Some(c) => place.saturating_add(c.len_utf8()),
        None => place,
    }
}

/// The place after the blanks at a place.
pub(crate) fn after_blanks(text: &str, place: usize) -> usize {
    if !text.is_char_boundary(place) {
        return place;
    }
    blanks_end(text, place)
}

/// The place after the spaces and tabs at a place.
pub(crate) fn after_spaces(text: &str, place: usize) -> usize {
    let here = rest(text, place);
    let after = here.trim_start_matches([' ', '\t']);
    place.saturating_add(here.len().saturating_sub(after.len()))
}

/// The first character that is no blank from a place on.
pub(crate) fn follows(text: &str, place: usize) -> Option<char> {
    char_here(text, after_blanks(text, place))
}

/// Whether this character is the first that is no blank.
pub(crate) fn follows_with(text: &str, place: usize, wanted: char) -> bool {
    has(text, after_blanks(text, place), wanted)
}

/// The place of the LF or CR at the end of the line, or the end of the text.
pub(crate) fn line_end(text: &str, place: usize) -> usize {
    match rest(text, place).find(['\n', '\r']) {
        Some(count) => place.saturating_add(count),
        None => text.len(),
    }
}

/// Whether a comment begins at a place.
pub(crate) fn opens_comment(text: &str, place: usize) -> bool {
    let here = rest(text, place);
    here.starts_with("//") || here.starts_with("/*")
}

/// Whether a character is punctuation of JSON.
pub(crate) fn is_mark(c: char) -> bool {
    matches!(c, '{' | '}' | '[' | ']' | ',' | ':')
}

/// Whether a character is a digit or a letter.
pub(crate) fn is_alphanumeric(c: char) -> bool {
    c.is_alphanumeric()
}

/// Whether a word has no letter, digit, `_` or `$`.
pub(crate) fn is_symbols(word: &str) -> bool {
    !word
        .chars()
        .any(|c| is_alphanumeric(c) || c == '_' || c == '$')
}

/// Whether no literal is joined to another where these two characters meet.
pub(crate) fn are_apart(before: Option<char>, after: Option<char>) -> bool {
    match (before, after) {
        (Some(a), Some(b)) => ends_lexeme(a) || ends_lexeme(b),
        _ => true,
    }
}

// Whether a character is in no literal.
fn ends_lexeme(c: char) -> bool {
    c.is_whitespace() || is_mark(c)
}
