//! The program's commands.
ghost use Rattle.std.specs.Prelude.{◌≡◌, MatchOption, ℕ};
ghost use Rattle.jsonc_engine.specs.Command.{is_pointer, request_of, value_at, value_by, writes, WritesBytes};

/// How many bytes a document may have that is patched, where the words name no other number.
const MOST_BYTES: usize = 1_000_000_000;

/// Where a command looks for a value.
#[derive(Clone, Copy, Debug, PartialEq, Eq)]
pub enum Place<'a> {
    /// At the JSON Pointer (RFC 6901) of this text, which leads through objects and arrays.
    Pointer(&'a str),
    /// At the names that this JSON text lists, which lead through objects alone.
    Names(&'a str),
}

impl<'a> Place<'a> {
    /// The place that a word names: a JSON Pointer where the word is empty or begins with `/`, and else names.
    pub fn from_word(word: &'a str) -> Place<'a>
        ensures { value_at result ≡ value_by word.now }
    {
        if is_pointer(word) {
            Place::Pointer(word)
        } else {
            Place::Names(word)
        }
    }
}

/// What the program is asked to do. Each command reads its input to the end.
#[derive(Clone, Copy, Debug, PartialEq, Eq)]
pub enum Command<'a> {
    /// Writes nothing.
    Check,
    /// Writes the document as it is.
    Print,
    /// Sets the value of the first property of this name in the document's object to that of this JSON text, and writes
    /// the document. Without such a property one is inserted after the last. A document without a value gets an empty
    /// object first.
    Set { name: &'a str, json: &'a str },
    /// Inserts the value of this JSON text after the last element of the document's array, and writes the document. A
    /// document without a value gets an empty array first.
    Append { json: &'a str },
    /// Removes the first property of this name from the document's object, and writes the document. Without such a
    /// property the document stays as it is.
    Remove { name: &'a str },
    /// Sorts the properties of the document's object by their names as they are written, without quotes, in the order of
    /// their bytes, and writes the document. Properties of one name stay in their order.
    Sort,
    /// Writes the value at this place as it is written there, and a line feed.
    Get { place: Place<'a> },
    /// Puts the value of this JSON text at the names of the other one, and writes the document. Names that are missing
    /// are inserted; a value of another kind than an object on the way stays, and is an error.
    Put { names: &'a str, json: &'a str },
    /// Drops what is at the names of this JSON text, and writes the document. Where nothing is there the document stays
    /// as it is.
    Drop { names: &'a str },
    /// Makes the operations of the JSON Patch (RFC 6902) of this text, and writes the document, whose text is to have at
    /// most so many bytes after each operation.
    Patch { text: &'a str, most: usize },
    /// Merges the merge patch (RFC 7396) of this text into the document, and writes it.
    Merge { text: &'a str },
    /// Writes the document as JSON.
    Json,
}

impl<'a> Command<'a> {
    ghost use Rattle.jsonc_engine.specs.Command.{Name, Request};

    /// The command that the words name, or `None` where they name none.
    pub fn from_words(words: &[&'a str]) -> Option<Command<'a>>
        ensures { MatchOption result
            ((request : Request) → ¬ (Name words.now request))
            (λ command. Name words.now (request_of command)) }
    {
        match words {
            ["check"] => Some(Command::Check),
            ["print"] => Some(Command::Print),
            ["set", name, json] => Some(Command::Set { name, json }),
            ["append", json] => Some(Command::Append { json }),
            ["remove", name] => Some(Command::Remove { name }),
            ["sort"] => Some(Command::Sort),
            ["get", word] => Some(Command::Get {
                place: Place::from_word(word),
            }),
            ["put", names, json] => Some(Command::Put { names, json }),
            ["drop", names] => Some(Command::Drop { names }),
            ["patch", text] => Some(Command::Patch {
                text,
                most: MOST_BYTES,
            }),
            ["patch", "--max-bytes", number, text] => match bytes_of(number) {
                Some(most) => Some(Command::Patch { text, most }),
                None => None,
            },
            ["merge", text] => Some(Command::Merge { text }),
            ["json"] => Some(Command::Json),
            _ => None,
        }
    }

    /// Whether the command writes anything.
    pub fn writes(self) -> bool
        ensures { result ≡ writes (request_of self.entry) }
    {
        !matches!(self, Command::Check)
    }
}

/// Whether a word is taken as a pointer.
fn is_pointer(word: &str) -> bool
    ensures { result ≡ is_pointer word.now }
{
    match word.as_bytes().first() {
        Some(first) => *first == b'/',
        None => true,
    }
}

/// The number of bytes that a word writes in decimal digits.
fn bytes_of(word: &str) -> Option<usize>
    ensures { MatchOption result ((n : ℕ) → ¬ (WritesBytes word.now n)) (WritesBytes word.now) }
{
    match word.parse::<usize>() {
        Ok(bytes) => Some(bytes),
        Err(_) => None,
    }
}
