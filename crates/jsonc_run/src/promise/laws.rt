//! Laws of edits of texts: each is the contract of a function that does nothing.

ghost use Rattle.std.specs.Prelude.{List, Option, ℕ};
ghost use Rattle.jsonc_text.specs.Documents.{Document};
ghost use Rattle.jsonc_text.specs.Options.{Options};
ghost use Rattle.jsonc_text.specs.Plain.{Plain};
ghost use Rattle.jsonc_tree.specs.OrderedTree.{OrderedTree};
ghost use Rattle.jsonc_tree.specs.Tree.{Node};
ghost use Rattle.jsonc_run.specs.Depth.{KeepsDepth};
ghost use Rattle.jsonc_run.specs.Edits.{PlainEdit};
ghost use Rattle.jsonc_run.specs.declared.edit.Edit.{Edit};
ghost use Rattle.jsonc_run.specs.promise.Asked.{EditsTo};
ghost use Rattle.jsonc_run.specs.promise.Chains.{EditsLead, RunsJoin, ShownAreDocuments, StepsAreRun};
ghost use Rattle.jsonc_run.specs.promise.CommentsCome.{AboveInText, BehindInText};
ghost use Rattle.jsonc_run.specs.promise.Depths.{ChainsKeepDepth, NeedsAsAsked, NeedsAtPlace, NestsAsValue};
ghost use Rattle.jsonc_run.specs.texts.Edits.{Operation};

use std::alloc::Allocator;

/// One chain of sound trees is one chain of the texts that they print, for every list of edits.
pub fn steps_are_run()
    ensures { (o : Options) (t u : OrderedTree) → StepsAreRun o t u }
{}

/// Edits that were made in order lead from the document that the nodes showed to the one that they show.
pub fn edits_lead()
    ensures { (old new : List Node) → EditsLead old new }
{}

/// A document that nodes show is one of the grammar, with its value and its marks.
pub fn shown_are_documents()
    ensures { (t : OrderedTree) → ShownAreDocuments t }
{}

/// Two lists of edits, of which the second begins where the first ends, are one.
pub fn runs_join()
    ensures { (d e f : Document) → RunsJoin d e f }
{}

/// A comment that was inserted above or after the entry at a path of a sound document whose options allow
/// comments is inserted in its text: all before and after it stays, the document says the same, and of its
/// literals and comments this one alone is new. A line comment is inserted after an entry where its line
/// ends.
pub fn comments_come_in_texts()
    ensures above { (o : Options) (old new : List Node) (text : List ℕ) → AboveInText o old new text }
    ensures behind { (o : Options) (old new : List Node) (text : List ℕ) → BehindInText o old new text }
{}

/// No operation nests a value deeper than the deepest one was, or than what it writes. So no document of
/// a chain of edits is nested deeper than a limit, if the first is not and no edit writes what would be.
pub fn depths_are_kept<A: Allocator>()
    ensures operation { (d e : Document) (op : Operation) → KeepsDepth d op e }
    ensures chain { (limit : ℕ) (d f : Document) (es : List (Edit A)) (chain : EditsTo d es f)
        → ChainsKeepDepth limit chain }
{}

/// How deep an edit nests what it writes is counted by the arrays, objects and properties above its place,
/// which are those around the value there.
pub fn needs_are_counted()
    ensures nodes { (o : Options) (ns : List Node) (path : List ℕ) (n : ℕ) → NestsAsValue o ns path n }
    ensures place { (o : Options) (ns : List Node) (e : PlainEdit) → NeedsAtPlace o ns e }
    ensures asked { (w : Option Plain) (e : PlainEdit) (op : Operation) → NeedsAsAsked w e op }
{}
