//! Laws of the definitions: each is the contract of a function that does nothing.

ghost use Rattle.jsonc_text.specs.Options.{Options};
ghost use Rattle.jsonc_tree.specs.Content.{Content};
ghost use Rattle.jsonc_tree.specs.OrderedTree.{OrderedTree};
ghost use Rattle.jsonc_layout.specs.to_input.Laws.{GivesDocumentValue, GivesItsValue, GivesOnce};

/// A node gives one value or none, and no two.
pub fn one_value_is_given()
    ensures { (content : Content) (below : OrderedTree) → GivesOnce content below }
{}

/// A node that has a value gives it, and a document its value or none, if in each property the
/// first element is a string or a word, and a colon stands between it and the value.
pub fn values_are_given()
    ensures node { (o : Options) (content : Content) (below : OrderedTree) → GivesItsValue o content below }
    ensures document { (o : Options) (tree : OrderedTree) → GivesDocumentValue o tree }
{}
