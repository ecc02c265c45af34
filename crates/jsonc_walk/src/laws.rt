//! Laws of reading: each is the contract of a function that does nothing.
ghost use Rattle.std.specs.Prelude.{List, [], ◌∷◌, ℕ, Bool, true, codes};
ghost use Rattle.jsonc_text.specs.Options.{Options, plain_json};
ghost use Rattle.jsonc_walk.specs.Faults.{fault};
ghost use Rattle.jsonc_text.specs.declared.errors.ParseErrorKind.TheVariants.{ExpectedComma, UnterminatedArray};
ghost use Rattle.jsonc_walk.specs.Laws.{ReachesEndsOfLexemes, HasOneWay, HasOneFault, FaultMeansNoDocument, IsOnlyFault, ReadsToDocument};

/// Reading comes to the ends of lexemes alone, so never into a string, a number or a comment.
pub fn reading_ends_lexemes()
    ensures { (o : Options) (whole : Bool) (s : List ℕ) → ReachesEndsOfLexemes o whole s }
{}

/// At a place that reading comes to, what is open and what is due are one; and of a text at most
/// one fault is told, of one range.
pub fn one_reading()
    ensures way { (o : Options) (whole : Bool) (s : List ℕ) → HasOneWay o whole s }
    ensures fault { (o : Options) (whole : Bool) (s : List ℕ) → HasOneFault o whole s }
{}

/// Where a fault is told, the text has no value, or one that nests too deep.
pub fn faults_are_of_no_document()
    ensures { (o : Options) (whole : Bool) (s : List ℕ) → FaultMeansNoDocument o whole s }
{}

/// Where reading comes to the end and nothing is wrong there, the text is the document of a value
/// that does not nest too deep, or of none.
pub fn reading_to_the_end()
    ensures { (o : Options) (whole : Bool) (s : List ℕ) → ReadsToDocument o whole s }
{}

/// Worked rows: of `["a" 1` it is told that a comma is missing after `"a"`, and nothing else; of
/// `["@"` that the array does not end, and nothing of the `@`.
pub fn worked_faults()
    ensures comma { IsOnlyFault plain_json true (codes "[\"a\" 1") (fault ExpectedComma (codes " 1") (codes " 1")) }
    ensures array { IsOnlyFault plain_json true (codes "[\"@\"") (fault UnterminatedArray (codes "[\"@\"") []) }
{}
