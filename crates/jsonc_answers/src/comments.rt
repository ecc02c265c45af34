//! The comments of a text, by place.
use crate::syntax::push_text;
use jsonc_parser::CommentMap;
use jsonc_parser::ast::Comment;
use std::alloc::{AllocError, Global};

/// The places that have comments, in order, each with its comments.
pub fn push_comments(
    alloc: Global,
    out: &mut String,
    comments: &CommentMap<'_, Global>,
) -> Result<(), AllocError> {
    write!(out, "\tmap {}", comments.len())?;
    let mut places: Vec<usize> = comments.keys().copied().collect(alloc)?;
    places.sort()?;
    for place in places.iter() {
        write!(out, "\t{place}:")?;
        if let Some(shared) = comments.get(place) {
            push_list(out, shared.as_slice())?;
        }
    }
    Ok(())
}

fn push_list(out: &mut String, comments: &[Comment<'_>]) -> Result<(), AllocError> {
    for comment in comments {
        out.push(' ')?;
        match comment {
            Comment::Line(line) => push_text(out, "l", line.range, line.text)?,
            Comment::Block(block) => push_text(out, "b", block.range, block.text)?,
        }
    }
    Ok(())
}
