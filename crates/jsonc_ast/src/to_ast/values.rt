//! A syntax tree, made of a text.
ghost use Rattle.std.specs.Prelude.{◌≡◌, ◌≤◌, IfOk, IfErr, OnOk, IfSome, true, option_map, is_some, chars};
ghost use Rattle.jsonc_text.specs.Faults.{IsFault, kind_of};
ghost use Rattle.jsonc_text.specs.Grammar.{IsDocument};
ghost use Rattle.jsonc_text.specs.OptionsOf.{parse_options};
ghost use Rattle.jsonc_text.specs.Plain.{around};
ghost use Rattle.jsonc_walk.specs.Collected.{is_separate, Collects, ShowsNoted};
ghost use Rattle.jsonc_walk.specs.Context.{text_in, options_in, token_end, comments_asked, Keeps, AtEnd};
ghost use Rattle.jsonc_walk.specs.Located.{IsLocatedDocument};
ghost use Rattle.jsonc_walk.specs.Refusals.{RefusesText};
ghost use Rattle.jsonc_walk.specs.Faults.{ParseFault};
ghost use Rattle.jsonc_ast.specs.Spelled.{spelled};
ghost use Rattle.jsonc_ast.specs.Views.{located, plain};
ghost use Rattle.jsonc_walk.specs.Lent.{AreLentIn};
ghost use Rattle.jsonc_walk.specs.Ranges.{CommentsLieIn, TokensLieIn};
ghost use Rattle.jsonc_ast.specs.to_ast.Results.{HoldsCollected, HoldsComments, located_in, plain_in};
ghost use Rattle.jsonc_walk.specs.Written.{AreWritten, AreWrittenIn};

use crate::ast::{
    BooleanLit, NullKeyword, NumberLit, ObjectProp, ObjectPropName, StringLit, Value, WordLit,
    array_of, object_of, property_of, push_property, push_value,
};
use jsonc_text::common::Range;
use jsonc_text::errors::{ParseError, ParseErrorKind};
use jsonc_text::options::ParseOptions;
use jsonc_text::tokens::TokenAndRange;
use jsonc_walk::collect::{CollectOptions, CommentMap};
use jsonc_walk::context::Context;
use jsonc_walk::passed::decode_passed;
use jsonc_walk::receiver::Receiver;
use jsonc_walk::room::make_room;
use jsonc_walk::stack::taken_from;
use jsonc_walk::walk::read_document;
use std::alloc::{AllocError, Allocator};
use std::borrow::CowStr;

/// The value of a text, with its comments and tokens where they are collected.
#[derive(Drop)]
pub struct ParseResult<'a, A: Allocator> {
    /// Its comments, where they are to stand in a map of their own.
    pub comments: Option<CommentMap<'a, A>>,
    /// Its value, or none where it holds blanks and comments alone.
    pub value: Option<Value<'a, A>>,
    /// Its tokens in order, where they were asked for: all the lexemes, and the comments among them
    /// where they stand among the tokens.
    pub tokens: Option<Vec<TokenAndRange<'a, A>, A>>,
}

/// What makes a syntax tree of a text as it is read.
#[derive(Drop)]
pub(crate) struct TreeMaker<'a, A: Allocator> {
    alloc: A,
    text: &'a str,
    options: ParseOptions,
    // The elements of the arrays that have not ended, those of the outer ones first.
    elements: Vec<Value<'a, A>, A>,
    // The properties of the objects that have not ended.
    properties: Vec<ObjectProp<'a, A>, A>,
}

impl<'a, A: Allocator + Copy> Receiver<String<A>> for TreeMaker<'a, A> {
    ghost use Rattle.std.specs.Prelude.{true};
    ghost use Rattle.jsonc_ast.specs.to_ast.Trees.{source_in, HoldsElements, HoldsProperties, IsName, IsTree};

    type Item = Value<'a, A>;

    // Where its elements begin among those of the arrays that have not ended.
    type Array = usize;

    // The same of its properties.
    type Object = usize;

    type Property = ObjectPropName<'a, A>;

    type Error = AllocError;

    ghost whole = { true };

    ghost source = { source_in };

    ghost makes = { IsTree };

    ghost names = { IsName };

    ghost holds_elements = { λ s t a i xs. HoldsElements s t a xs };

    ghost holds_properties = { λ s t o i ms. HoldsProperties s t o ms };

    ghost reached = { λ s i. Unit {0} };

    ghost passes = { λ s t. t ≡ s };

    #[inline(always)]
    fn is_whole(&self) -> bool {
        true
    }

    #[inline(always)]
    fn pass_gap(&mut self, from: usize) -> Result<usize, AllocError> {
        Ok(from)
    }

    #[inline(always)]
    fn string(&mut self, range: Range) -> Result<Value<'a, A>, AllocError> {
        Ok(Value::StringLit(StringLit {
            range,
            value: CowStr::Borrowed(&self.text[range.start + 1..range.end - 1]),
        }))
    }

    #[inline(always)]
    fn decoded(&mut self, range: Range, value: String<A>) -> Result<Value<'a, A>, AllocError> {
        Ok(Value::StringLit(StringLit {
            range,
            value: CowStr::Owned(value),
        }))
    }

    fn passed(&mut self, range: Range) -> Result<Value<'a, A>, AllocError> {
        let value = decode_passed(self.alloc, self.text, range, &self.options)?;
        Ok(Value::StringLit(StringLit {
            range,
            value: CowStr::Owned(value),
        }))
    }

    #[inline(always)]
    fn number(&mut self, range: Range) -> Result<Value<'a, A>, AllocError> {
        Ok(Value::NumberLit(NumberLit {
            range,
            value: &self.text[range.start..range.end],
        }))
    }

    #[inline(always)]
    fn boolean(&mut self, range: Range, value: bool) -> Result<Value<'a, A>, AllocError> {
        Ok(Value::BooleanLit(BooleanLit { range, value }))
    }

    #[inline(always)]
    fn null(&mut self, range: Range) -> Result<Value<'a, A>, AllocError> {
        Ok(Value::NullKeyword(NullKeyword { range }))
    }

    #[inline(always)]
    fn open_array(&mut self, _start: usize) -> Result<usize, AllocError> {
        Ok(self.elements.len())
    }

    #[inline(always)]
    fn element(&mut self, _array: &mut usize, item: Value<'a, A>) -> Result<(), AllocError> {
        make_room(&mut self.elements, &item, self.text.len())?;
        push_value(&mut self.elements, item)?;
        Ok(())
    }

    #[inline(always)]
    fn close_array(&mut self, array: usize, range: Range) -> Result<Value<'a, A>, AllocError> {
        let elements = taken_from(&mut self.elements, array)?;
        Ok(array_of(range, elements))
    }

    #[inline(always)]
    fn open_object(&mut self, _start: usize) -> Result<usize, AllocError> {
        Ok(self.properties.len())
    }

    #[inline(always)]
    fn string_name(&mut self, range: Range) -> Result<ObjectPropName<'a, A>, AllocError> {
        Ok(ObjectPropName::String(StringLit {
            range,
            value: CowStr::Borrowed(&self.text[range.start + 1..range.end - 1]),
        }))
    }

    #[inline(always)]
    fn decoded_name(
        &mut self,
        range: Range,
        value: String<A>,
    ) -> Result<ObjectPropName<'a, A>, AllocError> {
        Ok(ObjectPropName::String(StringLit {
            range,
            value: CowStr::Owned(value),
        }))
    }

    fn passed_name(&mut self, range: Range) -> Result<ObjectPropName<'a, A>, AllocError> {
        let value = decode_passed(self.alloc, self.text, range, &self.options)?;
        Ok(ObjectPropName::String(StringLit {
            range,
            value: CowStr::Owned(value),
        }))
    }

    #[inline(always)]
    fn word_name(&mut self, range: Range) -> Result<ObjectPropName<'a, A>, AllocError> {
        Ok(ObjectPropName::Word(WordLit {
            range,
            value: &self.text[range.start..range.end],
        }))
    }

    #[inline(always)]
    fn property(
        &mut self,
        _object: &mut usize,
        property: ObjectPropName<'a, A>,
        item: Value<'a, A>,
        range: Range,
    ) -> Result<(), AllocError> {
        push_property(&mut self.properties, property_of(range, property, item))?;
        Ok(())
    }

    #[inline(always)]
    fn close_object(&mut self, object: usize, range: Range) -> Result<Value<'a, A>, AllocError> {
        let properties = taken_from(&mut self.properties, object)?;
        Ok(object_of(range, properties))
    }
}

/// The value of the whole text, or none where it holds blanks and comments alone.
fn parse_whole<'a, A: Allocator + Copy>(
    context: &mut Context<'a, A>,
) -> Result<Option<Value<'a, A>>, ParseError>
    requires { token_end context.old ≡ 0 }
    ensures kept { OnOk result (Keeps context.old context.new) }
    ensures collects { OnOk result (Collects context.old context.new) }
    ensures end { OnOk result (AtEnd context.new) }
    ensures located { IfOk result
        (λ v. IsLocatedDocument (options_in context.old) (text_in context.old)
        (option_map located v)) }
    ensures written { IfOk result (λ f. IfSome f (λ v. AreWrittenIn context.old (spelled v))) }
    ensures within { IfOk result (λ f. IfSome f (λ v. around (plain v) ≤ 512)) }
    ensures refused { IfErr result (RefusesText (options_in context.old) (text_in context.old)) }
    ensures fault { IfErr result (IsFault (text_in context.old)) }
    ensures error { IfErr result (ParseFault (options_in context.old) (text_in context.old) true) }
{
    let mut to = TreeMaker {
        alloc: context.alloc,
        text: context.scanner.file_text(),
        options: context.options.copied(),
        elements: Vec::new(context.alloc),
        properties: Vec::new(context.alloc),
    };
    read_document(context, &mut to)
}

/// What a parser answers of a text at its end, with this value.
fn finish<'a, A: Allocator + Copy>(
    context: &mut Context<'a, A>,
    value: Option<Value<'a, A>>,
) -> Result<ParseResult<'a, A>, ParseError>
    ensures value { IfOk result (λ r. r.value ≡ value.entry) }
    ensures tokens { IfOk result (λ r. r.tokens ≡ context.old.tokens) }
    ensures apart { IfOk result (λ r. is_some r.comments ≡ comments_asked context.old) }
    ensures shown { IfOk result (λ r. ShowsNoted context.old r.comments) }
    ensures memory { IfErr result (λ e. kind_of e ≡ ParseErrorKind.OutOfMemory) }
    ensures fault { IfErr result (IsFault (text_in context.old)) }
{
    let comments = context.take_comments()?;
    let tokens = context.tokens.take();
    Ok(ParseResult {
        comments,
        value,
        tokens,
    })
}

/// Parses a text to its value, with the range of each node.
///
/// Places are bytes of the text. The value is None where the text holds blanks and comments alone.
/// A value that more than 512 containers and properties are around is an error. The error says what
/// is wrong, in which bytes, and in which line and column; an allocation failure is an error too.
pub fn parse_to_ast<'a, A: Allocator + Copy>(
    alloc: A,
    text: &'a str,
    collect: &CollectOptions,
    options: &ParseOptions,
) -> Result<ParseResult<'a, A>, ParseError>
    ensures accepted { IfOk result (λ r. IsDocument (parse_options options.now) (chars text.now) (plain_in r)) }
    ensures located { IfOk result (λ r. IsLocatedDocument (parse_options options.now) text.now (located_in r)) }
    ensures written { IfOk result
        (λ r. IfSome r.value (λ v. AreWritten (parse_options options.now) text.now (spelled v))) }
    ensures within { IfOk result (λ r. IfSome r.value (λ v. around (plain v) ≤ 512)) }
    ensures refused { IfErr result (RefusesText (parse_options options.now) text.now) }
    ensures tokens { IfOk result (λ r. is_some r.tokens ≡ collect.now.tokens) }
    ensures collected { IfOk result (HoldsCollected (parse_options options.now) text.now collect.now) }
    ensures lent { IfOk result (λ r. AreLentIn text.now r.tokens) }
    ensures token_ranges { IfOk result (λ r. TokensLieIn text.now r.tokens) }
    ensures apart { IfOk result (λ r. is_some r.comments ≡ is_separate collect.now.comments) }
    ensures comments { IfOk result (HoldsComments (parse_options options.now) text.now) }
    ensures comment_ranges { IfOk result (λ r. CommentsLieIn text.now r.comments) }
    ensures fault { IfErr result (IsFault text.now) }
    ensures error { IfErr result (ParseFault (parse_options options.now) text.now true) }
{
    let mut context = Context::new(alloc, text, collect, options);
    let value = parse_whole(&mut context)?;
    finish(&mut context, value)
}
