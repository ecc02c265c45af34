//! Laws of values that are set: each is the contract of a function that does nothing.

ghost use Rattle.std.specs.Prelude.{Bool, List, ℕ};
ghost use Rattle.jsonc_text.specs.Options.{Options};
ghost use Rattle.jsonc_text.specs.Plain.{Plain};
ghost use Rattle.jsonc_tree.specs.Tree.{IsTree, Node};
ghost use Rattle.jsonc_edit.specs.set.Booleans.{StaysAtPath, WritesBoolean};
ghost use Rattle.jsonc_edit.specs.set.Laws.{ComesAmongRows, GivesFirstValue, LeavesBareDocument};
ghost use Rattle.jsonc_edit.specs.set.Names.{HasNewName, IsMarkedForName, IsRenamed, KeepsPropertysPlace, StaysAroundName, WritesName};
ghost use Rattle.jsonc_edit.specs.set.Properties.{TakesPropertysPlace, WritesProperty};

/// Where a first value has come into a sound document that had none, and each number in it is a number,
/// the text is a document again, of that value; of its literals and comments those of the value have
/// come; and the document is sound. It is so under all options.
pub fn documents_have_their_first_value()
    ensures rows { (o : Options) (old new : List Node) (v : Plain) (m : ℕ) → ComesAmongRows o old new v m }
    ensures document { (o : Options) (old new : List Node) (v : Plain) (m : ℕ) → GivesFirstValue o old new v m }
{}

/// A root whose children have all been taken out is a sound document, without a value and without
/// literals and comments.
pub fn cleared_documents_are_bare()
    ensures { (o : Options) (new : List Node) → LeavesBareDocument o new }
{}

/// Where a property of an object at a path of a sound document has been replaced by one of a name and a
/// value, and each number in the value is a number, the text is a document again, and its value is the
/// old one but for that entry. A space has come where two literals without quotes would have met, and all
/// other leaves stay, in order; of the literals and comments those of the old property have been replaced by
/// the literals of the new one; and the document is sound. It is so under all options. The object stands
/// where it stood, and the new property is the element that the old one was.
pub fn replaced_properties_are_written()
    ensures written { (o : Options) (old new : List Node) (path : List ℕ) (c i n m : ℕ) (name : List ℕ) (v : Plain)
        → WritesProperty o old new path c i n m name v }
    ensures place { (old new : List Node) (path : List ℕ) (c i n m : ℕ) (name : List ℕ) (v : Plain)
        → TakesPropertysPlace old new path c i n m name v }
{}

/// Where a truth value at a path of a sound document was set, the text is a document again, and at the
/// path of its value this truth value stands. A space has come where `false` would have run on into a
/// hexadecimal number, and all other leaves stay, in order; of the literals and comments that of the old
/// truth value has been replaced; and the document is sound. It is so under all options. The leaf stands
/// where it stood.
pub fn set_booleans_are_written()
    ensures written { (o : Options) (old new : List Node) (path : List ℕ) (n : ℕ) (b : Bool)
        → WritesBoolean o old new path n b }
    ensures place { (old new : List Node) (path : List ℕ) (n : ℕ) (b : Bool) → StaysAtPath old new path n b }
{}

/// Where a property of an object at a path of a sound document was given another name, the text is a
/// document again, and its value is the old one but for that name; and the document is sound. It is so
/// under all options. In every document, also one that is not sound, that name alone is another: all
/// leaves around it stay, in order, and all other literals and comments. The object and the property
/// are where they were, and the new name is the property's.
pub fn properties_are_renamed()
    ensures written { (o : Options) (old new : List Node) (path : List ℕ) (c i p m : ℕ) (name : List ℕ)
        → WritesName o old new path c i p m name }
    ensures around { (old new : List Node) (p m : ℕ) (name : List ℕ)
        → IsTree old → IsRenamed old new p name m → StaysAroundName old new p name }
    ensures marked { (old new : List Node) (p m : ℕ) (name : List ℕ)
        → IsTree old → IsRenamed old new p name m → IsMarkedForName old new p name }
    ensures place { (old new : List Node) (path : List ℕ) (c i p m : ℕ) (name : List ℕ)
        → KeepsPropertysPlace old new path c i p m name }
    ensures name { (old new : List Node) (p m : ℕ) (name : List ℕ) → HasNewName old new p m name }
{}
