//! Laws of strings and of what is told of them: each is the contract of a function that does nothing.
ghost use Rattle.std.specs.Prelude.{◌≡◌, [], List, ℕ, Bool};
ghost use Rattle.jsonc_text.specs.Options.{Options, all_on};
ghost use Rattle.jsonc_text.specs.Strings.{IsQuote, IsString};
ghost use Rattle.jsonc_text.specs.StringValue.{literal_value};
ghost use Rattle.jsonc_text.specs.string.Faults.{HasOneFault, HasNoStringToo};

/// Of a string at most one fault is told, of one range; and where one is, no string stands.
pub fn one_fault()
    ensures one { (taken : Bool) (q : ℕ) (s : List ℕ) → IsQuote all_on q → HasOneFault taken q s }
    ensures none { (taken : Bool) (q : ℕ) (s : List ℕ) → IsQuote all_on q → HasNoStringToo taken q s }
{}

/// The string that a literal stands for is what is computed of its characters, whatever the options.
pub fn strings_are_computed()
    ensures { (o : Options) (t v : List ℕ) → IsString o t v [] → literal_value t ≡ v }
{}
