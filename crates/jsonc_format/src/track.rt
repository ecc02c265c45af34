//! What is known of a text after each of its pieces.
ghost use Rattle.std.specs.Prelude.{◌≡◌, ◌∷◌, ◌++◌, ◌||◌, [], Bool, List, not, OnOk, chars, false, true};
ghost use Rattle.jsonc_text.specs.Lexemes.{Scanned};
ghost use Rattle.jsonc_format.specs.Classes.{IsOf};
ghost use Rattle.jsonc_format.specs.Flags.{flats_of};
ghost use Rattle.jsonc_format.specs.Gaps.{AreEnds};
ghost use Rattle.jsonc_format.specs.Format.{Piece, leads, start, written};
ghost use Rattle.jsonc_format.specs.Writing.{style_in, text_of};
ghost use Rattle.jsonc_format.specs.Tracks.{track_state, gap_here, Nests, PassesPiece, PutsPiece};

use crate::class::Class;
use crate::gap::{Gap, gap_before};
use crate::gaps::Ends;
use crate::output::{Layout, put_gap, put_piece};
use crate::state::{Beside, Frame, Open};
use std::alloc::{AllocError, Allocator};

/// What is known after a piece: whether there was one, the open containers, what else the next gap depends on, and which of the
/// containers that follow are on one line.
#[derive(Drop)]
pub(crate) struct Track<'a, A: Allocator> {
    pub begun: bool,
    pub frames: Open<A>,
    pub beside: Beside,
    pub flat: &'a [bool],
}

impl<'a, A: Allocator> Track<'a, A> {
    /// Before the first piece.
    pub(crate) fn new(alloc: A, flat: &'a [bool]) -> Track<'a, A>
        ensures begun { result.begun ≡ false }
        ensures state { track_state result ≡ start }
        ensures flat { result.flat.now ≡ flat.now }
    {
        Track {
            begun: false,
            frames: Open {
                inner: None,
                outer: Vec::new(alloc),
            },
            beside: Beside::start(),
            flat,
        }
    }

    /// Whether the container that the next bracket opens is put on several lines.
    fn spreads_next(&mut self, expand: bool) -> bool
        ensures spread { (flat : Bool) (others : List Bool) → self.old.flat.now ≡ flat ∷ others → result ≡ (expand || not flat) }
        ensures flat { (flat : Bool) (others : List Bool) → self.old.flat.now ≡ flat ∷ others → self.new.flat.now ≡ others }
        ensures held { self.new.frames ≡ self.old.frames }
        ensures beside { self.new.beside ≡ self.old.beside }
    {
        let Some((flat, others)) = self.flat.split_first() else {
            return true;
        };
        self.flat = others;
        expand | !*flat
    }

    /// Opens or closes a container, where the piece does.
    fn nest(&mut self, class: Class, expand: bool) -> Result<(), AllocError>
        ensures { (w : Scanned) (ps : List Piece) → IsOf class w → self.old.flat.now ≡ flats_of w ps → OnOk result (Nests expand w ps self.old self.new) }
    {
        if class.opens() {
            let spread = self.spreads_next(expand);
            return self.frames.push(Frame {
                object: class.is_brace(),
                spread,
                shifted: self.beside.shifted,
            });
        }
        if class.closes() {
            self.frames.pop();
        }
        Ok(())
    }

    /// Goes on past a piece.
    fn pass(&mut self, class: Class, layout: &Layout<'_>) -> Result<(), AllocError>
        ensures { (w : Scanned) (ps : List Piece) → IsOf class w → self.old.flat.now ≡ flats_of w ps → OnOk result (PassesPiece (style_in layout.now) w ps self.old self.new) }
    {
        let object = self.frames.is_object();
        self.nest(class, layout.expand)?;
        self.beside = self.beside.after(class, object);
        self.begun = true;
        Ok(())
    }

    /// Writes what is before a piece.
    fn put_before(
        &self,
        out: &mut String<A>,
        layout: &Layout<'_>,
        class: Class,
        ends: Ends,
        leading: bool,
    ) -> Result<(), AllocError>
        ensures { (p : Piece) (ps : List Piece) → AreEnds ends p.gap → IsOf class p.what → (self.now.beside.comment ≡ false → leads p.what ps ≡ leading)
            → OnOk result (text_of out.new ≡ text_of out.old ++ gap_here self.now.begun (style_in layout.now) (track_state self.now) p ps) }
    {
        if !self.begun {
            return Ok(());
        }
        let before = gap_before(self.frames.inner, self.beside, class, ends, leading);
        put_gap(out, layout, &self.frames, before)
    }

    /// Writes a piece and what is before it, and goes on past it.
    pub(crate) fn put(
        &mut self,
        out: &mut String<A>,
        layout: &Layout<'_>,
        class: Class,
        ends: Ends,
        text: &str,
        leading: bool,
    ) -> Result<(), AllocError>
        ensures { (p : Piece) (ps : List Piece) → AreEnds ends p.gap → p.text ≡ chars text.now → IsOf class p.what → self.old.flat.now ≡ flats_of p.what ps
            → (self.old.beside.comment ≡ false → leads p.what ps ≡ leading) → OnOk result (PutsPiece (style_in layout.now) p ps self.old self.new (text_of out.old) (text_of out.new)) }
    {
        self.put_before(out, layout, class, ends, leading)?;
        put_piece(out, class, text)?;
        self.pass(class, layout)
    }
}
