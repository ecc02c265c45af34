//! What the words ask for.
ghost use Rattle.std.specs.Prelude.{◌≡◌};
ghost use Rattle.jsonc_words.specs.Commands.{name_of, sets_commas, text_in, writes_document};
ghost use Rattle.jsonc_words.specs.Inputs.{IsInput, is_standard, reads_standard};

use crate::name::CommandName;

/// A file by its name, or standard input, which the word `-` stands for.
#[derive(Clone, Copy, Debug)]
pub enum Input<'a> {
    Standard,
    File(&'a str),
}

impl<'a> Input<'a> {
    /// The input that a word names.
    pub fn from_word(word: &'a str) -> Input<'a>
        ensures { IsInput word.entry.now result }
    {
        if word == "-" {
            Input::Standard
        } else {
            Input::File(word)
        }
    }

    /// Whether it is standard input.
    pub fn is_standard(self) -> bool
        ensures { result ≡ is_standard self.entry }
    {
        match self {
            Input::Standard => true,
            Input::File(_) => false,
        }
    }
}

/// The text of an argument: a word, or the contents of what `-f` names.
#[derive(Clone, Copy, Debug)]
pub enum Text<'a> {
    Word(&'a str),
    In(Input<'a>),
}

impl Text<'_> {
    /// Whether it is read from standard input.
    pub fn reads_standard(self) -> bool
        ensures { result ≡ reads_standard self.entry }
    {
        match self {
            Text::Word(_) => false,
            Text::In(input) => input.is_standard(),
        }
    }
}

/// A value: JSON, or with `--string` the string itself.
#[derive(Clone, Copy, Debug)]
pub struct Value<'a> {
    pub text: Text<'a>,
    pub is_string: bool,
}

/// Which texts are taken.
#[derive(Clone, Copy, Debug)]
pub enum Dialect {
    Json,
    Jsonc,
    Json5,
    All,
}

/// How findings are written.
#[derive(Clone, Copy, Debug)]
pub enum Format {
    Text,
    Json,
}

/// One level of indent.
#[derive(Clone, Copy, Debug)]
pub enum Indent {
    /// So many spaces, eight at most.
    Spaces(u8),
    Tab,
}

/// What ends a line.
#[derive(Clone, Copy, Debug)]
pub enum LineEnd {
    Lf,
    CrLf,
}

/// What becomes of the commas behind last entries.
#[derive(Clone, Copy, Debug)]
pub enum TrailingCommas {
    /// None stays.
    Never,
    /// One stands in each array and object on several lines.
    Multiline,
}

/// The options of `format`.
#[derive(Clone, Copy, Debug)]
pub struct FormatOptions {
    pub indent: Option<Indent>,
    pub line_end: Option<LineEnd>,
    pub expand: bool,
    pub trailing_commas: Option<TrailingCommas>,
    /// Whether it is told which files would change, and no document is written.
    pub only_checks: bool,
    /// Whether what would change is written as a diff, and no document.
    pub shows_diff: bool,
}

/// A command with its arguments and its own options. A place is a word as it is given: a JSON Pointer, or an array of
/// names.
#[derive(Clone, Copy, Debug)]
pub enum Command<'a> {
    Check {
        format: Format,
        /// Whether all faults are told, and not the first alone.
        finds_all: bool,
    },
    Print,
    Set {
        name: &'a str,
        value: Value<'a>,
    },
    Append {
        value: Value<'a>,
    },
    Remove {
        name: &'a str,
        with_comments: bool,
    },
    Sort {
        at: Option<&'a str>,
        is_recursive: bool,
        keeps_headers: bool,
    },
    Drop {
        place: &'a str,
        with_comments: bool,
    },
    Get {
        place: &'a str,
        is_raw: bool,
    },
    Put {
        place: &'a str,
        value: Value<'a>,
    },
    Rename {
        place: &'a str,
        name: &'a str,
    },
    Comment {
        place: &'a str,
        text: Text<'a>,
        is_after: bool,
    },
    Patch {
        patch: Text<'a>,
        most_bytes: Option<u64>,
    },
    Merge {
        patch: Text<'a>,
    },
    Json,
    Lint {
        format: Format,
        no_trailing_commas: bool,
    },
    Format(FormatOptions),
    Mend,
}

impl<'a> Command<'a> {
    /// The name of the command.
    pub fn name(self) -> CommandName
        ensures { result ≡ name_of self.entry }
    {
        match self {
            Command::Check { .. } => CommandName::Check,
            Command::Print => CommandName::Print,
            Command::Set { .. } => CommandName::Set,
            Command::Append { .. } => CommandName::Append,
            Command::Remove { .. } => CommandName::Remove,
            Command::Sort { .. } => CommandName::Sort,
            Command::Drop { .. } => CommandName::Drop,
            Command::Get { .. } => CommandName::Get,
            Command::Put { .. } => CommandName::Put,
            Command::Rename { .. } => CommandName::Rename,
            Command::Comment { .. } => CommandName::Comment,
            Command::Patch { .. } => CommandName::Patch,
            Command::Merge { .. } => CommandName::Merge,
            Command::Json => CommandName::Json,
            Command::Lint { .. } => CommandName::Lint,
            Command::Format(_) => CommandName::Format,
            Command::Mend => CommandName::Mend,
        }
    }

    /// Whether the command writes the document, so that `--in-place` may be given.
    pub fn writes_document(self) -> bool
        ensures { result ≡ writes_document self.entry }
    {
        match self {
            Command::Format(options) => !options.only_checks && !options.shows_diff,
            _ => self.name().works_in_place(),
        }
    }

    /// Whether the command sets trailing commas.
    pub fn sets_commas(self) -> bool
        ensures { result ≡ sets_commas self.entry }
    {
        match self {
            Command::Format(options) => {
                matches!(options.trailing_commas, Some(TrailingCommas::Multiline))
            }
            _ => false,
        }
    }

    /// The text that the command takes, which `-f` may give.
    pub fn text(self) -> Option<Text<'a>>
        ensures { result ≡ text_in self.entry }
    {
        match self {
            Command::Set { value, .. } => Some(value.text),
            Command::Append { value } => Some(value.text),
            Command::Put { value, .. } => Some(value.text),
            Command::Comment { text, .. } => Some(text),
            Command::Patch { patch, .. } => Some(patch),
            Command::Merge { patch } => Some(patch),
            _ => None,
        }
    }
}

/// What the words ask for: a command on files, or on standard input where there are none.
#[derive(Debug, Drop)]
pub struct Call<'a> {
    pub command: Command<'a>,
    pub dialect: Dialect,
    /// Whether it is status 3 where nothing is at the name or place, as it always is for `get`, `rename` and
    /// `comment`.
    pub must_exist: bool,
    /// Whether each file is changed itself, and nothing is written to standard output.
    pub in_place: bool,
    pub files: Vec<Input<'a>>,
}
