//! The comment of a text.

ghost use Rattle.std.specs.Prelude.{◌≡◌, ◌++◌, IfOk, codes, string_bytes};
ghost use Rattle.jsonc_program.specs.edit.Words.{IsCommentOf, IsWithoutEnd};

use std::alloc::{AllocError, Allocator};

/// A text without the carriage return that it ends with, if it does.
fn without_return(text: &str) -> &str
    ensures { IsWithoutEnd text.now result.now }
{
    match text.strip_suffix('\r') {
        Some(rest) => rest,
        None => text,
    }
}

/// A text without the line end that it ends with, if it does.
fn without_end(text: &str) -> &str
    ensures { IsWithoutEnd text.now result.now }
{
    match text.strip_suffix('\n') {
        Some(rest) => without_return(rest),
        None => without_return(text),
    }
}

/// A copy of a text.
fn copied<A: Allocator>(alloc: A, text: &str) -> Result<String<A>, AllocError>
    ensures { IfOk result (λ copy. string_bytes copy ≡ text.now) }
{
    match String::from_str(alloc, text) {
        Ok(copy) => Ok(copy),
        Err(_) => Err(AllocError),
    }
}

/// A line comment that says a text.
fn on_a_line<A: Allocator + Copy>(alloc: A, text: &str) -> Result<String<A>, AllocError>
    ensures { IfOk result (λ comment. string_bytes comment ≡ codes "// " ++ text.now) }
{
    match format!(in alloc; "// {text}") {
        Ok(comment) => Ok(comment),
        Err(_) => Err(AllocError),
    }
}

/// A block comment that says a text.
fn in_a_block<A: Allocator + Copy>(alloc: A, text: &str) -> Result<String<A>, AllocError>
    ensures { IfOk result (λ comment. string_bytes comment ≡ codes "/* " ++ (text.now ++ codes " */")) }
{
    match format!(in alloc; "/* {text} */") {
        Ok(comment) => Ok(comment),
        Err(_) => Err(AllocError),
    }
}

/// The comment of a text: the text itself, where it begins as a comment; else a line comment that says it, or a block
/// comment, where the text has more than one line. A line end at its end is left out.
pub(crate) fn comment_of<A: Allocator + Copy>(alloc: A, text: &str) -> Result<String<A>, AllocError>
    ensures { IfOk result (λ comment. IsCommentOf text.now (string_bytes comment)) }
{
    let said = without_end(text);
    if said.starts_with("//") {
        return copied(alloc, said);
    }
    if said.starts_with("/*") {
        return copied(alloc, said);
    }
    if said.contains(['\r', '\n']) {
        return in_a_block(alloc, said);
    }
    on_a_line(alloc, said)
}
