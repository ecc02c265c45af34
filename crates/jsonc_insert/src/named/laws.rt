//! Laws of values of properties by name: each is the contract of a function that does nothing.
ghost use Rattle.std.specs.Prelude.{List, Option, ℕ};
ghost use Rattle.jsonc_text.specs.Options.{Options};
ghost use Rattle.jsonc_tree.specs.Tree.{Node};
ghost use Rattle.jsonc_text.specs.declared.edit.EditError.{EditError};
ghost use Rattle.jsonc_text.specs.declared.edit.Over.{Over};
ghost use Rattle.jsonc_text.specs.declared.edit.Shape.{Shape};
ghost use Rattle.jsonc_insert.specs.named.Laws.{FindsMember, OnlyOutOfMemory, WritesNamed};

/// The first property of a name in an object at a path of a sound document is the first of that name in the
/// object's value, and where none is found the value has none.
pub fn names_are_those_of_values()
    ensures { (o : Options) (ns : List Node) (path : List ℕ) (c : ℕ) (name : List ℕ) (found : Option ℕ)
        → FindsMember o ns path c name found }
{}

/// Where the value of the first property of a name in an object at a path of a sound document is to be an
/// array or object, the text is a document again, in which that property alone has changed, or has been
/// inserted last; the document is sound; and nothing is refused but for allocation failure.
pub fn named_values_are_written()
    ensures written { (o : Options) (old new : List Node) (path : List ℕ) (c : ℕ) (name : List ℕ) (shape : Shape)
        (how : Over) (answer : Option ℕ) → WritesNamed o old new path c name shape how answer }
    ensures memory { (o : Options) (ns : List Node) (path : List ℕ) (c : ℕ) (name : List ℕ) (shape : Shape)
        (how : Over) (e : EditError) → OnlyOutOfMemory o ns path c name shape how e }
{}
