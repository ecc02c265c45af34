//! The calls that are timed. Each answers a number of its result, so that no result goes unused.
ghost use Rattle.std.specs.Prelude.{All};
ghost use Rattle.jsonc_cst.specs.Document.{HasNode};
ghost use Rattle.jsonc_cst.specs.Nodes.{object_node};

use crate::documents::{elements, parsed};
use crate::edits::{appended, inserted, removed, replaced, set};
use crate::patches::patched;
use jsonc_engine::fault::Fault;
use jsonc_parser::cst::{CstContainerNode, CstNode, CstObject, CstRootNode, EditError, TypedNode};
use jsonc_parser::view::parse_to_view;
use jsonc_parser::{
    CollectOptions, CommentCollectionStrategy, LineIndex, ParseOptions, Scanner, ScannerOptions,
    check, parse_to_ast, parse_to_value,
};
use std::alloc::Global;

/// What is timed.
#[derive(Clone, Copy)]
pub enum Call {
    /// Nothing: the process reads its input, and that is all.
    Nothing,
    /// Every token of a scanner.
    Scan,
    /// `check`, which keeps nothing.
    Check,
    /// `parse_to_ast`, with nothing collected.
    Ast,
    /// `parse_to_ast`, with tokens and the comments among them.
    Tokens,
    /// `parse_to_value`.
    Value,
    /// `parse_to_view`.
    View,
    /// `CstRootNode::parse`.
    Document,
    /// `text` of a document that is parsed once.
    Print,
    /// The program's `print`, from bytes to bytes.
    Program,
    /// `replace_with` of the last element of an array of numbers that is parsed once.
    Replaced,
    /// `next_sibling` of each element of an array that is parsed once.
    Siblings,
    /// `set_value` of the last property of an object that is parsed once.
    Set,
    /// `append` of a number to an array that is parsed once.
    Appended,
    /// `insert` of a number at the front of an array that is parsed once.
    Inserted,
    /// `remove` of the elements of an array that is parsed once, from the last on.
    Removed,
    /// Parse, a patch of ten operations and print, of settings of 1 MB.
    Patched,
    /// What a linter does: parse, and walk all nodes with ranges, for lines, columns and names that stand twice.
    Lint,
    /// `repeated_names` of the document's object, which is parsed once.
    Repeated,
    /// `get` of the last name of the document's object, which is parsed once.
    Last,
}

impl Call {
    /// The call of this name.
    pub fn from_word(word: &str) -> Option<Call> {
        match word {
            "nothing" => Some(Call::Nothing),
            "scan" => Some(Call::Scan),
            "check" => Some(Call::Check),
            "ast" => Some(Call::Ast),
            "tokens" => Some(Call::Tokens),
            "value" => Some(Call::Value),
            "view" => Some(Call::View),
            "document" => Some(Call::Document),
            "print" => Some(Call::Print),
            "program" => Some(Call::Program),
            "replaced" => Some(Call::Replaced),
            "siblings" => Some(Call::Siblings),
            "set" => Some(Call::Set),
            "appended" => Some(Call::Appended),
            "inserted" => Some(Call::Inserted),
            "removed" => Some(Call::Removed),
            "patched" => Some(Call::Patched),
            "lint" => Some(Call::Lint),
            "repeated" => Some(Call::Repeated),
            "last" => Some(Call::Last),
            _ => None,
        }
    }

    /// Makes the call so many times, and answers the sum of what came.
    pub fn repeat(self, alloc: Global, input: &[u8], count: u64) -> Result<usize, Fault<Global>> {
        let Ok(text) = str::from_utf8(input) else {
            return Err(Fault::NotUtf8);
        };
        match self {
            Call::Print => print(alloc, text, count),
            Call::Replaced => replaced(alloc, text, count),
            Call::Siblings => siblings(alloc, text, count),
            Call::Set => set(alloc, text, count),
            Call::Appended => appended(alloc, text, count),
            Call::Inserted => inserted(alloc, text, count),
            Call::Removed => removed(alloc, text, count),
            Call::Repeated => repeated(alloc, text, count),
            Call::Last => last(alloc, text, count),
            _ => self.each(alloc, text, count),
        }
    }

    fn each(self, alloc: Global, text: &str, count: u64) -> Result<usize, Fault<Global>> {
        let mut sum = 0usize;
        for _ in 0..count {
            sum = sum.saturating_add(self.once(alloc, text)?);
        }
        Ok(sum)
    }

    fn once(self, alloc: Global, text: &str) -> Result<usize, Fault<Global>> {
        match self {
            Call::Nothing
            | Call::Print
            | Call::Replaced
            | Call::Siblings
            | Call::Set
            | Call::Appended
            | Call::Inserted
            | Call::Removed
            | Call::Repeated
            | Call::Last => Ok(0),
            Call::Scan => scan(alloc, text),
            Call::Check => checked(alloc, text),
            Call::Ast => ast(alloc, text),
            Call::Tokens => tokens(alloc, text),
            Call::Value => value(alloc, text),
            Call::View => view(alloc, text),
            Call::Document => document(alloc, text),
            Call::Program => program(alloc, text),
            Call::Patched => patched(alloc, text),
            Call::Lint => lint(alloc, text),
        }
    }
}

/// How many tokens a text has.
fn scan(alloc: Global, text: &str) -> Result<usize, Fault<Global>> {
    let mut scanner = Scanner::new(alloc, text, &ScannerOptions::default());
    let mut count = 0usize;
    // Each token has a byte at least.
    for _ in 0..=text.len() {
        match scanner.scan() {
            Ok(Some(_)) => count = count.saturating_add(1),
            Ok(None) => return Ok(count),
            Err(error) => return Err(Fault::Input(error)),
        }
    }
    Ok(count)
}

/// 1 for each text.
fn checked(alloc: Global, text: &str) -> Result<usize, Fault<Global>> {
    match check(alloc, text, &ParseOptions::default()) {
        Ok(()) => Ok(1),
        Err(error) => Err(Fault::Input(error)),
    }
}

/// 1 for a text with a value, 0 for one without.
fn ast(alloc: Global, text: &str) -> Result<usize, Fault<Global>> {
    match parse_to_ast(
        alloc,
        text,
        &CollectOptions::default(),
        &ParseOptions::default(),
    ) {
        Ok(parsed) => {
            if parsed.value.is_some() {
                return Ok(1);
            }
            Ok(0)
        }
        Err(error) => Err(Fault::Input(error)),
    }
}

/// How many tokens were collected.
fn tokens(alloc: Global, text: &str) -> Result<usize, Fault<Global>> {
    let collect = CollectOptions {
        comments: CommentCollectionStrategy::AsTokens,
        tokens: true,
    };
    match parse_to_ast(alloc, text, &collect, &ParseOptions::default()) {
        Ok(parsed) => match &parsed.tokens {
            Some(tokens) => Ok(tokens.len()),
            None => Ok(0),
        },
        Err(error) => Err(Fault::Input(error)),
    }
}

/// 1 for a text with a value, 0 for one without.
fn value(alloc: Global, text: &str) -> Result<usize, Fault<Global>> {
    match parse_to_value(alloc, text, &ParseOptions::default()) {
        Ok(found) => {
            if found.is_some() {
                return Ok(1);
            }
            Ok(0)
        }
        Err(error) => Err(Fault::Input(error)),
    }
}

/// 1 for a text with a value, 0 for one without.
fn view(alloc: Global, text: &str) -> Result<usize, Fault<Global>> {
    match parse_to_view(alloc, text, &ParseOptions::default()) {
        Ok(view) => {
            if view.value().is_some() {
                return Ok(1);
            }
            Ok(0)
        }
        Err(error) => Err(Fault::Input(error)),
    }
}

/// 1 for each document.
fn document(alloc: Global, text: &str) -> Result<usize, Fault<Global>> {
    let _document = parsed(alloc, text)?;
    Ok(1)
}

/// The bytes printed of one document, so many times.
fn print(alloc: Global, text: &str, count: u64) -> Result<usize, Fault<Global>> {
    let document = parsed(alloc, text)?;
    let mut sum = 0usize;
    for _ in 0..count {
        let Ok(printed) = document.text() else {
            return Err(Fault::Edit(EditError::OutOfMemory));
        };
        sum = sum.saturating_add(printed.len());
    }
    Ok(sum)
}

/// The bytes of a text that is looked at as bytes, parsed and printed.
fn program(alloc: Global, text: &str) -> Result<usize, Fault<Global>> {
    let Ok(text) = str::from_utf8(text.as_bytes()) else {
        return Err(Fault::NotUtf8);
    };
    print(alloc, text, 1)
}

/// How many of the elements have a next sibling.
fn followed(document: &CstRootNode<Global>, elements: &[CstNode]) -> usize
    requires { All (HasNode document.now) elements.now }
{
    let mut count = 0usize;
    for element in elements {
        if element.next_sibling(document).is_some() {
            count = count.saturating_add(1);
        }
    }
    count
}

/// How many of the elements of one document have a next sibling, so many times.
fn siblings(alloc: Global, text: &str, count: u64) -> Result<usize, Fault<Global>> {
    let document = parsed(alloc, text)?;
    let elements = elements(&document)?;
    let mut sum = 0usize;
    for _ in 0..count {
        sum = sum.saturating_add(followed(&document, elements.as_slice()));
    }
    Ok(sum)
}

/// How many properties of an object have a name that stood before.
fn repeated_in(document: &CstRootNode<Global>, object: CstObject) -> Result<usize, Fault<Global>>
    requires { HasNode document.now (object_node object) }
{
    match object.repeated_names(document) {
        Ok(properties) => Ok(properties.len()),
        Err(error) => Err(Fault::Edit(error)),
    }
}

/// The nodes of a document, the columns of its properties, and the names that stand twice, summed.
fn lint(alloc: Global, text: &str) -> Result<usize, Fault<Global>> {
    let document = parsed(alloc, text)?;
    let lines = LineIndex::new(alloc, text)?;
    let mut sum = 0usize;
    for (node, start) in document.descendants_with_starts(CstNode::from(document.root())) {
        let Some(start) = start else {
            continue;
        };
        sum = sum.saturating_add(1);
        if let CstNode::Container(CstContainerNode::Object(object)) = node {
            sum = sum.saturating_add(repeated_in(&document, object)?);
        }
        if node.as_object_prop().is_some()
            && let Some(at) = lines.line_and_column(start)
        {
            sum = sum.saturating_add(at.column);
        }
    }
    Ok(sum)
}

/// How many names stand twice in the object of one document, so many times.
fn repeated(alloc: Global, text: &str, count: u64) -> Result<usize, Fault<Global>> {
    let document = parsed(alloc, text)?;
    let Some(object) = document.object_value() else {
        return Err(Fault::NotObject);
    };
    let mut sum = 0usize;
    for _ in 0..count {
        sum = sum.saturating_add(repeated_in(&document, object)?);
    }
    Ok(sum)
}

/// The name of the last property of an object.
fn last_name(document: &CstRootNode<Global>, object: CstObject) -> Result<String, Fault<Global>>
    requires { HasNode document.now (object_node object) }
{
    let properties = match object.properties(document) {
        Ok(properties) => properties,
        Err(error) => return Err(Fault::Edit(error)),
    };
    let Some(property) = properties.last() else {
        return Err(Fault::NoSetting);
    };
    if !document.holds(property.node()) {
        return Err(Fault::NoSetting);
    }
    match property.decoded_name(document) {
        Ok(Some(name)) => Ok(name),
        Ok(None) => Err(Fault::NoSetting),
        Err(_) => Err(Fault::Edit(EditError::OutOfMemory)),
    }
}

/// How often the last property of one document's object was found by its name.
fn last(alloc: Global, text: &str, count: u64) -> Result<usize, Fault<Global>> {
    let document = parsed(alloc, text)?;
    let Some(object) = document.object_value() else {
        return Err(Fault::NotObject);
    };
    let name = last_name(&document, object)?;
    let mut sum = 0usize;
    for _ in 0..count {
        match object.get(&document, name.as_str()) {
            Ok(Some(_)) => sum = sum.saturating_add(1),
            Ok(None) => return Err(Fault::NoSetting),
            Err(error) => return Err(Fault::Edit(error)),
        }
    }
    Ok(sum)
}
