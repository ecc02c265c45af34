//! The names of the commands.
ghost use Rattle.std.specs.Prelude.{◌≡◌, ◌≢◌, MatchOption};
ghost use Rattle.jsonc_words.specs.Names.{text_of, works_in_place};

/// A command of the program.
#[derive(Clone, Copy, Debug)]
pub enum CommandName {
    Check,
    Print,
    Set,
    Append,
    Remove,
    Sort,
    Drop,
    Get,
    Put,
    Rename,
    Comment,
    Patch,
    Merge,
    Json,
    Lint,
    Format,
    Mend,
}

impl CommandName {
    /// All of them, in the order of the help.
    pub const ALL: [CommandName; 17] = [
        CommandName::Check,
        CommandName::Print,
        CommandName::Get,
        CommandName::Put,
        CommandName::Drop,
        CommandName::Rename,
        CommandName::Comment,
        CommandName::Set,
        CommandName::Append,
        CommandName::Remove,
        CommandName::Sort,
        CommandName::Format,
        CommandName::Patch,
        CommandName::Merge,
        CommandName::Json,
        CommandName::Lint,
        CommandName::Mend,
    ];

    /// The command whose name this word is.
    pub fn from_word(word: &str) -> Option<CommandName>
        ensures { MatchOption result ((name : _) → word.now ≢ text_of name) (λ name. word.now ≡ text_of name) }
    {
        match word {
            "check" => Some(CommandName::Check),
            "print" => Some(CommandName::Print),
            "set" => Some(CommandName::Set),
            "append" => Some(CommandName::Append),
            "remove" => Some(CommandName::Remove),
            "sort" => Some(CommandName::Sort),
            "drop" => Some(CommandName::Drop),
            "get" => Some(CommandName::Get),
            "put" => Some(CommandName::Put),
            "rename" => Some(CommandName::Rename),
            "comment" => Some(CommandName::Comment),
            "patch" => Some(CommandName::Patch),
            "merge" => Some(CommandName::Merge),
            "json" => Some(CommandName::Json),
            "lint" => Some(CommandName::Lint),
            "format" => Some(CommandName::Format),
            "mend" => Some(CommandName::Mend),
            _ => None,
        }
    }

    /// The word that names the command.
    pub fn as_str(self) -> &'static str
        ensures { result.now ≡ text_of self }
    {
        match self {
            CommandName::Check => "check",
            CommandName::Print => "print",
            CommandName::Set => "set",
            CommandName::Append => "append",
            CommandName::Remove => "remove",
            CommandName::Sort => "sort",
            CommandName::Drop => "drop",
            CommandName::Get => "get",
            CommandName::Put => "put",
            CommandName::Rename => "rename",
            CommandName::Comment => "comment",
            CommandName::Patch => "patch",
            CommandName::Merge => "merge",
            CommandName::Json => "json",
            CommandName::Lint => "lint",
            CommandName::Format => "format",
            CommandName::Mend => "mend",
        }
    }

    /// Whether the command writes the document, unless an option asks for a check or a diff: all but `check`, `get`,
    /// `json` and `lint`.
    pub fn works_in_place(self) -> bool
        ensures { result ≡ works_in_place self }
    {
        match self {
            CommandName::Check | CommandName::Get | CommandName::Json | CommandName::Lint => false,
            _ => true,
        }
    }
}
