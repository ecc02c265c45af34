//! Laws of soundness, under all options. Each is the contract of a function that does nothing.
ghost use Rattle.std.specs.Prelude.{◌≡◌, Bool, false, List, Option, ℕ};
ghost use Rattle.jsonc_text.specs.Options.{Options};
ghost use Rattle.jsonc_tree.specs.Content.{Content};
ghost use Rattle.jsonc_tree.specs.OrderedTree.{OrderedTree, Top};
ghost use Rattle.jsonc_sound.specs.Rows.{RowKind};
ghost use Rattle.jsonc_sound.specs.Booleans.{StaysSoundWithBoolean};
ghost use Rattle.jsonc_sound.specs.SoundTrees.{KeptWithoutComment, KeptByBooleans, SoundTreesComeApart, ParsedAreSound, SoundTreesPrint, KeptByStretches, KeptWhereNoneMeet, KeptByValues};
ghost use Rattle.jsonc_sound.specs.InRows.{KeptByValueInProperty, KeptByValueInRoot, KeptByValueInRow, KeptWithoutCommentInRow, KeptWithSpace};
ghost use Rattle.jsonc_sound.specs.WorkedEdits.{KeptByAppending, KeptByTakingOut};
ghost use Rattle.jsonc_sound.specs.LooseLines.{LooseTriviaIsGap, StaysLoose, LooseLinesComeApart};
ghost use Rattle.jsonc_sound.specs.WorkedSpaces.{WorkedSpaces};
ghost use Rattle.jsonc_sound.specs.CommaLaws.{NoneMeetInRows, StretchesJoin, ValuesStandAlone, WholeValuesEnd, PropertiesStandAlone};
ghost use Rattle.jsonc_sound.specs.TriviaLaws.{KeepsNodes, StaysSoundWithTrivia, StaysSoundWithoutComment, StaysSoundWithSpaceForComment};
ghost use Rattle.jsonc_sound.specs.SpaceLaws.{SpaceServes, StretchEnds, StaysSoundWhereNoneMeet, StaysSoundWithValue, StaysSoundWithSpaces};
ghost use Rattle.jsonc_sound.specs.SeamLaws.{ShapesComeApart, NodesPrint, LeavesComeApart, GoesByTheLast, SeamsServe, StaysSoundAtSeams, StaysSoundWithStretch};

/// Two stretches of leaves end where each does.
pub fn leaves_come_apart()
    ensures apart { (o : Options) (first second : List Content) (n : Option ℕ) → LeavesComeApart o first second n }
    ensures last { (o : Options) (leaves : List Content) → GoesByTheLast o leaves }
    ensures seams { (o : Options) (was now : List Content) → SeamsServe o was now }
{}

/// A tree has a document's shape exactly where each node has it alone, and its leaves end.
pub fn shapes_come_apart()
    ensures apart { (o : Options) (t : OrderedTree) → ShapesComeApart o t }
    ensures prints { (o : Options) (t : OrderedTree) → NodesPrint o t }
{}

/// Under all options a document stays sound where a value is replaced by another, and the leaves end at
/// the two seams.
pub fn documents_stay_sound_at_seams()
    ensures { (o : Options) (t : OrderedTree) → StaysSoundAtSeams o t }
{}

/// Under all options a document stays sound where in a row a stretch is replaced by another, by what stands
/// beside it in the row.
pub fn documents_stay_sound_with_stretches()
    ensures { (o : Options) (t : OrderedTree) → StaysSoundWithStretch o t }
{}

/// Before a space all leaves end that end before something, and a stretch of a row ends before the rest of
/// one, where no two literals without quotes meet.
pub fn literals_meet_across_spaces()
    ensures space { (o : Options) (ls : List Content) → SpaceServes o ls }
    ensures stretch { (o : Options) (kind : RowKind) (stretch rest : OrderedTree) → StretchEnds o kind stretch rest }
    ensures sound { (o : Options) (t : OrderedTree) → StaysSoundWhereNoneMeet o t }
    ensures spaced { (o : Options) (t : OrderedTree) → StaysSoundWithSpaces o t }
    ensures value { (o : Options) (t : OrderedTree) → StaysSoundWithValue o t }
{}

/// Where commas may not be missing no two literals without quotes meet. Stretches whose leaves end, and
/// in which none meet, make one; and a value or a property of the grammar's shape stands alone.
pub fn rows_with_commas()
    ensures none { (o : Options) (kind : RowKind) (stretch rest : OrderedTree)
        → o.missing_commas ≡ false → NoneMeetInRows o kind stretch rest }
    ensures join { (o : Options) (kind : RowKind) (first second : OrderedTree) → StretchesJoin o kind first second }
    ensures values { (o : Options) (top : Top) → ValuesStandAlone o top × WholeValuesEnd o top }
    ensures properties { (o : Options) (row : OrderedTree) → PropertiesStandAlone o row }
{}

/// Where trivia is replaced by trivia, under all options, a document stays sound if the last leaf before it
/// ends.
pub fn documents_stay_sound_with_trivia()
    ensures nodes { (o : Options) (t : OrderedTree) → KeepsNodes o t }
    ensures sound { (o : Options) (t : OrderedTree) → StaysSoundWithTrivia o t }
    ensures without { (o : Options) (t : OrderedTree) → StaysSoundWithoutComment o t }
    ensures space { (o : Options) (t : OrderedTree) → StaysSoundWithSpaceForComment o t }
{}

/// In `[1[2]3]` and `["a"[1]true]` spaces are inserted where the rule wants them.
pub fn worked_spaces()
    ensures { WorkedSpaces }
{}

/// Where a line comment's newline stands after whitespace, trivia is a gap all the same; and line
/// comments still end so where a value is replaced, or one stretch follows another.
pub fn loose_lines_are_gaps()
    ensures gaps { (o : Options) (loose : Bool) (t r : OrderedTree) → LooseTriviaIsGap o loose t r }
    ensures changed { (t : OrderedTree) → StaysLoose t }
    ensures apart { (loose at_end : Bool) (first second : OrderedTree) → LooseLinesComeApart loose at_end first second }
{}

/// `true` is replaced by `false`, and `false` to `true`, save where `false` would stand directly after a
/// hexadecimal number.
pub fn booleans_give_way()
    ensures { (o : Options) (t : OrderedTree) → StaysSoundWithBoolean o t }
{}

/// Soundness, where line comments may end after whitespace: parsed documents have it, its documents
/// print documents of the grammar, and changes of rows and values keep it, under all options.
pub fn sound_trees()
    ensures apart { (o : Options) (t : OrderedTree) → SoundTreesComeApart o t }
    ensures parsed { (o : Options) (t : OrderedTree) → ParsedAreSound o t }
    ensures prints { (o : Options) (t : OrderedTree) → SoundTreesPrint o t }
    ensures stretches { (o : Options) (t : OrderedTree) → KeptByStretches o t }
    ensures none { (o : Options) (t : OrderedTree) → KeptWhereNoneMeet o t }
    ensures values { (o : Options) (t : OrderedTree) → KeptByValues o t }
    ensures comment { (o : Options) (t : OrderedTree) → KeptWithoutComment o t }
    ensures boolean { (o : Options) (t : OrderedTree) → KeptByBooleans o t }
{}

/// Appending to an array and taking a stretch out of a row keep soundness.
pub fn worked_edits()
    ensures appended { (o : Options) (t : OrderedTree) → KeptByAppending o t }
    ensures taken { (o : Options) (t : OrderedTree) → KeptByTakingOut o t }
{}

/// A space before an element, after another node of its row, keeps soundness.
pub fn spaces_may_be_put()
    ensures { (o : Options) (t : OrderedTree) → KeptWithSpace o t }
{}

/// Whether a document stays sound without a comment, or with another value, is seen in the row of the
/// change: no two literals without quotes meet in it that did not. Of a property's value it is seen
/// after it in the row of the object.
pub fn rows_tell()
    ensures comment { (o : Options) (t : OrderedTree) → KeptWithoutCommentInRow o t }
    ensures value { (o : Options) (t : OrderedTree) → KeptByValueInRow o t }
    ensures root { (o : Options) (was now : Top) (front back : OrderedTree) → KeptByValueInRoot o was now front back }
    ensures held { (o : Options) (t : OrderedTree) → KeptByValueInProperty o t }
{}
