//! Laws of properties that are inserted into documents: each is the contract of a function that does nothing.
ghost use Rattle.std.specs.Prelude.{List, ℕ};
ghost use Rattle.jsonc_text.specs.Options.{Options};
ghost use Rattle.jsonc_text.specs.Plain.{Plain};
ghost use Rattle.jsonc_tree.specs.Tree.{Node};
ghost use Rattle.jsonc_insert.specs.properties.Laws.{PropertiesAreWritten, PropertiesInsertedAt, StandsInPlace};

/// Where a property has been inserted into an object at a path of a sound document, as its property of a number
/// or its last, the object has been put on several lines, blank lines have been removed from its row, and then
/// the property has been inserted; and nothing outside of the row has changed. So where each number in the
/// value is a number, the text is a document again, whose object has that property more, and the document is
/// sound. The object stands where it stood, and the answer is its property of the number, or its last.
pub fn properties_come_into_documents()
    ensures row { (o : Options) (old new : List Node) (path : List ℕ) (c i : ℕ) (name : List ℕ) (v : Plain) (m : ℕ)
        → PropertiesInsertedAt o old new path c i name v m }
    ensures written { (o : Options) (old new : List Node) (path : List ℕ) (c i : ℕ) (name : List ℕ) (v : Plain) (m : ℕ)
        → PropertiesAreWritten o old new path c i name v m }
    ensures place { (old new : List Node) (path : List ℕ) (c i : ℕ) (name : List ℕ) (v : Plain) (m : ℕ)
        → StandsInPlace old new path c i name v m }
{}
