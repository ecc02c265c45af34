//! Which arrays and objects of a text are on one line, in the order in which they are opened.
ghost use Rattle.std.specs.Prelude.{◌≡◌, ◌∷◌, ◌++◌, [], IfOk, IfErr, OnOk, None, chars, length, not, true, false};
ghost use Rattle.jsonc_text.specs.OptionsOf.{parse_options};
ghost use Rattle.jsonc_format.specs.Pieces.{AreFlagsOf, IsPiecesError};

use crate::class::Class;
use crate::gaps::ends_between;
use crate::scan::next_piece;
use crate::stop::Stop;
use jsonc_scan::found::TokenContent;
use jsonc_scan::scanner::Scanner;
use jsonc_text::options::ParseOptions;
use jsonc_text::string::stops::stop_place;
use std::alloc::{AllocError, Allocator};

/// An array or object that is open: its number, and whether a line has ended in it, but for what is in an open one inside it.
#[derive(Clone, Copy, Drop)]
pub(crate) struct Pending {
    pub number: usize,
    pub broken: bool,
}

/// What is known of arrays and objects so far: which are on one line, as those that are open are not yet; the open ones, the innermost
/// and those around it, of which the last is next to it; and whether the last piece opened one.
#[derive(Drop)]
pub(crate) struct Plan<A: Allocator> {
    pub flat: Vec<bool, A>,
    pub inner: Option<Pending>,
    pub outer: Vec<Pending, A>,
    pub bare: bool,
    pub ghost innermost: { inner ≡ None → outer.items ≡ [] },
}

impl<A: Allocator + Copy> Plan<A> {
    ghost use Rattle.jsonc_format.specs.Plans.{pending};

    /// Before the first piece.
    fn new(alloc: A) -> Plan<A>
        ensures flat { result.flat.items ≡ [] }
        ensures held { pending result ≡ [] }
        ensures bare { result.bare ≡ false }
    {
        Plan {
            flat: Vec::new(alloc),
            inner: None,
            outer: Vec::new(alloc),
            bare: false,
        }
    }
}

impl<A: Allocator> Plan<A> {
    ghost use Rattle.jsonc_format.specs.Plans.{marked, pending, IsReady, IsClosed, Passes};

    /// Notes that a line ends in the innermost container, or that none does.
    fn mark(&mut self, broken: bool)
        ensures held { pending self.new ≡ marked broken (pending self.old) }
        ensures flat { self.new.flat ≡ self.old.flat }
        ensures bare { self.new.bare ≡ self.old.bare }
    {
        if !broken {
            return;
        }
        if let Some(last) = self.inner {
            self.inner = Some(Pending {
                number: last.number,
                broken: last.broken | broken,
            });
        }
    }

    /// Notes a container that is opened.
    fn open(&mut self) -> Result<(), AllocError>
        ensures held { OnOk result (pending self.new ≡ record { number = length self.old.flat.items; broken = false } ∷ pending self.old) }
        ensures flat { OnOk result (self.new.flat.items ≡ self.old.flat.items ++ false ∷ []) }
        ensures bare { OnOk result (self.new.bare ≡ true) }
    {
        if let Some(last) = self.inner {
            self.outer.push(last)?;
        }
        self.inner = Some(Pending {
            number: self.flat.len(),
            broken: false,
        });
        self.flat.push(false)?;
        self.bare = true;
        Ok(())
    }

    /// Notes that the innermost container is closed.
    fn close(&mut self)
        requires { IsReady self.old }
        ensures { IsClosed self.old self.new }
    {
        let bare = self.bare;
        self.bare = false;
        let Some(closed) = self.inner else {
            return;
        };
        self.inner = self.outer.pop();
        self.flat[closed.number] = bare | !closed.broken;
        self.mark(closed.broken);
    }

    /// Goes on past a piece, where no line ends in it and the blanks before it, or one does.
    fn pass(&mut self, class: Class, in_line: bool) -> Result<(), AllocError>
        requires { IsReady self.old }
        ensures { OnOk result (Passes class in_line self.old self.new) }
    {
        self.mark(!in_line);
        if class.opens() {
            return self.open();
        }
        if class.closes() {
            self.close();
            return Ok(());
        }
        self.bare = false;
        Ok(())
    }
}

/// Of each array and object of a text whether it is empty or on one line, in the order of their opening brackets.
#[inline(never)]
pub(crate) fn flat_containers<A: Allocator + Copy>(
    alloc: A,
    text: &str,
    options: &ParseOptions,
) -> Result<Vec<bool, A>, Stop>
    ensures flags { IfOk result (λ v. AreFlagsOf (parse_options options.now) text.now v.items) }
    ensures refused { IfErr result (IsPiecesError (parse_options options.now) (chars text.now)) }
{
    let mut scanner = Scanner::with_options(alloc, text, options.copied());
    let mut content = TokenContent::new();
    let mut plan = Plan::new(alloc);
    let mut from = 0;
    let mut line_end = stop_place(text, 0, b'\n', b'\r');
    'pieces: loop {
        let found = next_piece(&mut scanner, &mut content)?;
        let Some(kind) = found else {
            return Ok(plan.flat);
        };
        let end = scanner.token_end();
        let in_line = !ends_between(text, from, end, &mut line_end);
        let Ok(()) = plan.pass(Class::of(kind), in_line) else {
            return Err(Stop::Memory);
        };
        from = end;
    }
}
