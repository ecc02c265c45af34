//! From a text to its tree.
ghost use Rattle.std.specs.Prelude.{◌≡◌, IfErr, IfOk, Option, chars, true};
ghost use Rattle.jsonc_text.specs.Faults.{IsFault};
ghost use Rattle.jsonc_text.specs.Grammar.{IsDocument};
ghost use Rattle.jsonc_text.specs.OptionsOf.{parse_options};
ghost use Rattle.jsonc_text.specs.Plain.{Plain};
ghost use Rattle.jsonc_tree.specs.OrderedTree.{ordered_tree, printed};
ghost use Rattle.jsonc_tree.specs.Values.{DocumentValueOf};
ghost use Rattle.jsonc_walk.specs.Located.{Located, IsLocatedDocument, value_at};
ghost use Rattle.jsonc_walk.specs.Faults.{ParseFault};
ghost use Rattle.jsonc_walk.specs.Refusals.{IsWithin, RefusesText};
ghost use Rattle.jsonc_sound.specs.Lines.{DocumentLinesEnd};
ghost use Rattle.jsonc_sound.specs.Shape.{DocumentShaped};
ghost use Rattle.jsonc_build.specs.Laid.{LiesIn};

use crate::maker::DocumentMaker;
use jsonc_text::errors::ParseError;
use jsonc_text::options::ParseOptions;
use jsonc_tree::Tree;
use jsonc_walk::context::Context;
use jsonc_walk::walk::read_document;
use std::alloc::Allocator;

/// Parses a text to its tree, which is made as the text is read.
///
/// Its leaves joined are the text. A string, number or word is a leaf with its text as written, `true`,
/// `false` and `null` are leaves; arrays, objects and properties are containers. Between them each
/// comment is a leaf, with its marks, each line end is one, the blanks that stand together within a line
/// are one, and so is each comma and colon. An array and an object have their brackets first and last.
/// The errors are those of `parse_to_ast`, and an allocation failure may be told of a text whose fault
/// lies further on.
pub fn parse_tree<A: Allocator + Copy>(
    alloc: A,
    text: &str,
    options: &ParseOptions,
) -> Result<Tree<A>, ParseError>
    ensures laid { IfOk result (λ t. LiesIn (parse_options options.now) text.now (ordered_tree t.nodes 0)) }
    ensures printed { IfOk result (λ t. printed (ordered_tree t.nodes 0) ≡ text.now) }
    ensures value { IfOk result (λ t. (w : Option Plain) × IsDocument (parse_options options.now) (chars text.now) w
        × IsWithin w × DocumentValueOf (parse_options options.now) (ordered_tree t.nodes 0) w) }
    ensures shaped { IfOk result (λ t. DocumentShaped (parse_options options.now) (ordered_tree t.nodes 0)) }
    ensures lines { IfOk result (λ t. DocumentLinesEnd (ordered_tree t.nodes 0)) }
    ensures refused { IfErr result (RefusesText (parse_options options.now) text.now) }
    ensures fault { IfErr result (IsFault text.now) }
    ensures error { IfErr result (ParseFault (parse_options options.now) text.now true) }
{
    let mut context = Context::of_places(alloc, text, options);
    let Ok(mut to) = DocumentMaker::new(alloc, text, options) else {
        return Err(context.out_of_memory());
    };
    read_document(&mut context, &mut to)?;
    Ok(to.finish())
}
