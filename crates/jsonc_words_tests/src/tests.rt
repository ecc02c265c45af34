//! Rows of words, each with the call that they ask for or the status that they end with.

mod calls;
mod replies;

use jsonc_words::call::Call;
use jsonc_words::{Reply, read_words};
use std::alloc::{AllocError, Global};

/// The call of the line's words, or what is told of them. A word ends at a blank.
fn said(alloc: Global, line: &str) -> Result<String, AllocError> {
    let mut words = Vec::new(alloc);
    words.push("jsonc")?;
    for word in line.split(' ') {
        if !word.is_empty() {
            words.push(word)?;
        }
    }
    match read_words(alloc, words.as_slice()) {
        Ok(call) => said_of_call(alloc, &call),
        Err(reply) => said_of_reply(alloc, &reply),
    }
}

/// The call as a line.
fn said_of_call(alloc: Global, call: &Call<'_>) -> Result<String, AllocError> {
    format!(in alloc;
        "{:?} {:?}{}{} {:?}",
        call.command,
        call.dialect,
        if call.must_exist { " must exist" } else { "" },
        if call.in_place { " in place" } else { "" },
        call.files,
    )
}

/// The status of a reply, and its text.
fn said_of_reply(alloc: Global, reply: &Reply) -> Result<String, AllocError> {
    format!(in alloc; "{} {reply}", reply.status())
}
