//! Cases, read from their lines.

use crate::edits::{Step, read_edits};
use crate::error::CaseError;
use crate::escape::{unescaped, unescaped_text};
use crate::lookups::{Lookup, read_lookups};
use jsonc_parser::{CollectOptions, CommentCollectionStrategy, ParseOptions};
use std::alloc::Global;

/// What a case asks.
#[derive(Drop)]
pub enum Question {
    /// The tokens of a text.
    Scan {
        options: ParseOptions,
        text: String,
    },
    /// The syntax tree of a text, and its tokens and comments where they are to be collected.
    Ast {
        options: ParseOptions,
        collect: CollectOptions,
        text: String,
    },
    /// The value of a text.
    Value {
        options: ParseOptions,
        text: String,
    },
    /// The faults of a text, each with its change.
    Mends {
        options: ParseOptions,
        text: String,
    },
    /// Whether two texts have equal values.
    Equal {
        options: ParseOptions,
        one: String,
        other: String,
    },
    /// What is looked up in the object of a text.
    Object {
        options: ParseOptions,
        text: String,
        lookups: Vec<Lookup>,
        /// Whether the object is that of the text's syntax tree.
        in_tree: bool,
    },
    /// What edits make of the document of a text.
    Edit {
        options: ParseOptions,
        text: String,
        edits: Vec<Step>,
        /// Whether it then tells of itself and of its nodes.
        reads: bool,
    },
    /// The string at the front of a text.
    Decode {
        text: String,
    },
    /// What printing the input under these options does.
    Print {
        options: ParseOptions,
        input: Vec<u8>,
    },
    /// What the program does with these words and this input.
    Program {
        words: Vec<String>,
        input: Vec<u8>,
    },
}

/// A question, with the name by which its answer is known.
#[derive(Drop)]
pub struct Case<'a> {
    pub id: &'a str,
    pub question: Question,
}

impl<'a> Case<'a> {
    /// The case that a line holds.
    pub fn from_line(alloc: Global, line: &'a str) -> Result<Case<'a>, CaseError> {
        let fields: Vec<&str> = line.split('\t').collect(alloc)?;
        let [id, kind, fields @ ..] = fields.as_slice() else {
            return Err(CaseError::NoKind);
        };
        let question = Question::from_fields(alloc, kind, fields)?;
        Ok(Case { id: *id, question })
    }
}

impl Question {
    fn from_fields(alloc: Global, kind: &str, fields: &[&str]) -> Result<Question, CaseError> {
        match kind {
            "scan" | "value" | "mends" => of_text(alloc, kind, fields),
            "jobj" | "aobj" | "edit" | "read" => of_document(alloc, kind, fields),
            "ast" => ast(alloc, fields),
            "equal" => equal(alloc, fields),
            "decode" => decode(alloc, fields),
            "print" => print(alloc, fields),
            "jsonc" | "settings" => program(alloc, fields),
            _ => Err(CaseError::UnknownKind),
        }
    }
}

/// A question about a text alone.
fn of_text(alloc: Global, kind: &str, fields: &[&str]) -> Result<Question, CaseError> {
    let [options, text] = fields else {
        return Err(CaseError::FieldCount);
    };
    let options = read_options(options)?;
    let text = unescaped_text(alloc, text)?;
    Ok(match kind {
        "scan" => Question::Scan { options, text },
        "mends" => Question::Mends { options, text },
        _ => Question::Value { options, text },
    })
}

/// A question about a text, of which look-ups or edits are made.
fn of_document(alloc: Global, kind: &str, fields: &[&str]) -> Result<Question, CaseError> {
    let [options, text, calls] = fields else {
        return Err(CaseError::FieldCount);
    };
    let options = read_options(options)?;
    let text = unescaped_text(alloc, text)?;
    match kind {
        "jobj" | "aobj" => {
            let lookups = read_lookups(alloc, calls)?;
            Ok(Question::Object {
                options,
                text,
                lookups,
                in_tree: kind == "aobj",
            })
        }
        _ => {
            let edits = read_edits(alloc, calls)?;
            Ok(Question::Edit {
                options,
                text,
                edits,
                reads: kind == "read",
            })
        }
    }
}

fn ast(alloc: Global, fields: &[&str]) -> Result<Question, CaseError> {
    let [options, collect, text] = fields else {
        return Err(CaseError::FieldCount);
    };
    Ok(Question::Ast {
        options: read_options(options)?,
        collect: read_collection(collect)?,
        text: unescaped_text(alloc, text)?,
    })
}

fn equal(alloc: Global, fields: &[&str]) -> Result<Question, CaseError> {
    let [options, one, other] = fields else {
        return Err(CaseError::FieldCount);
    };
    Ok(Question::Equal {
        options: read_options(options)?,
        one: unescaped_text(alloc, one)?,
        other: unescaped_text(alloc, other)?,
    })
}

fn decode(alloc: Global, fields: &[&str]) -> Result<Question, CaseError> {
    let [text] = fields else {
        return Err(CaseError::FieldCount);
    };
    Ok(Question::Decode {
        text: unescaped_text(alloc, text)?,
    })
}

fn print(alloc: Global, fields: &[&str]) -> Result<Question, CaseError> {
    let [options, input] = fields else {
        return Err(CaseError::FieldCount);
    };
    Ok(Question::Print {
        options: read_options(options)?,
        input: unescaped(alloc, input)?,
    })
}

fn program(alloc: Global, fields: &[&str]) -> Result<Question, CaseError> {
    let [words, input] = fields else {
        return Err(CaseError::FieldCount);
    };
    Ok(Question::Program {
        words: read_words(alloc, words)?,
        input: unescaped(alloc, input)?,
    })
}

fn read_flag(flag: u8) -> Result<bool, CaseError> {
    match flag {
        b'0' => Ok(false),
        b'1' => Ok(true),
        _ => Err(CaseError::Options),
    }
}

/// The options that ten flags stand for.
fn read_options(flags: &str) -> Result<ParseOptions, CaseError> {
    let [
        comments,
        loose,
        trailing,
        missing,
        quotes,
        hex,
        plus,
        points,
        non_finite,
        escapes,
    ] = flags.as_bytes()
    else {
        return Err(CaseError::Options);
    };
    Ok(ParseOptions {
        allow_comments: read_flag(*comments)?,
        allow_loose_object_property_names: read_flag(*loose)?,
        allow_trailing_commas: read_flag(*trailing)?,
        allow_missing_commas: read_flag(*missing)?,
        allow_single_quoted_strings: read_flag(*quotes)?,
        allow_hexadecimal_numbers: read_flag(*hex)?,
        allow_unary_plus_numbers: read_flag(*plus)?,
        allow_bare_decimal_point_numbers: read_flag(*points)?,
        allow_non_finite_numbers: read_flag(*non_finite)?,
        allow_extended_string_escapes: read_flag(*escapes)?,
    })
}

/// What is to be collected.
fn read_collection(letters: &str) -> Result<CollectOptions, CaseError> {
    let (comments, tokens) = match letters {
        "O-" => (CommentCollectionStrategy::Off, false),
        "Ot" => (CommentCollectionStrategy::Off, true),
        "T-" => (CommentCollectionStrategy::AsTokens, false),
        "Tt" => (CommentCollectionStrategy::AsTokens, true),
        "S-" => (CommentCollectionStrategy::Separate, false),
        "St" => (CommentCollectionStrategy::Separate, true),
        _ => return Err(CaseError::Collection),
    };
    Ok(CollectOptions { comments, tokens })
}

/// The words of a command line, each after a `'`.
fn read_words(alloc: Global, field: &str) -> Result<Vec<String>, CaseError> {
    let mut words = Vec::new(alloc);
    for word in field.split(' ') {
        if word.is_empty() {
            continue;
        }
        let Some(word) = word.strip_prefix('\'') else {
            return Err(CaseError::Word);
        };
        words.push(unescaped_text(alloc, word)?)?;
    }
    Ok(words)
}
