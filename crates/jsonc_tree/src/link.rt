//! The number of a node, or none.

ghost use Rattle.std.specs.Prelude.{◌≡◌, ◌<◌, ◌-◌, ◌^◌, IfSome};

use std::marker::Model;

// The number of a node, or none, in four bytes: a tree has no more nodes than such numbers. The largest
// number stands for none.
#[derive(Drop)]
pub(crate) struct Link {
    number: u32,
}

impl Model for Link {
    ghost use Rattle.std.specs.Prelude.{ℕ, Option};
    ghost use Rattle.jsonc_tree.specs.Link.{link_of};

    ghost Value = { Option ℕ };

    ghost view = { λ l. link_of l.number };
}

impl Link {
    #[inline(always)]
    pub(crate) fn from_option(o: Option<usize>) -> Link
        requires { IfSome o (λ n. n < 2 ^ 32 - 1) }
        ensures { result ≡ o }
    {
        match o {
            None => Link { number: u32::MAX },
            Some(number) => Link {
                number: number as u32,
            },
        }
    }

    #[inline(always)]
    pub(crate) fn get(&self) -> Option<usize>
        ensures { result ≡ self.now }
    {
        if self.number == u32::MAX {
            None
        } else {
            Some(self.number as usize)
        }
    }

    pub(crate) fn copied(&self) -> Link
        ensures { result ≡ self.now }
    {
        Link {
            number: self.number,
        }
    }
}

// The same in eight bytes, for what stands beside a text: words of one size are moved at once.
#[derive(Drop)]
pub(crate) struct WideLink {
    number: usize,
}

impl Model for WideLink {
    ghost use Rattle.std.specs.Prelude.{ℕ, Option};
    ghost use Rattle.jsonc_tree.specs.Link.{wide_link_of};

    ghost Value = { Option ℕ };

    ghost view = { λ l. wide_link_of l.number };
}

impl WideLink {
    #[inline(always)]
    pub(crate) fn from_option(o: Option<usize>) -> WideLink
        requires { IfSome o (λ n. n < 2 ^ 32 - 1) }
        ensures { result ≡ o }
    {
        match o {
            None => WideLink { number: usize::MAX },
            Some(number) => WideLink { number },
        }
    }

    #[inline(always)]
    pub(crate) fn get(&self) -> Option<usize>
        ensures { result ≡ self.now }
    {
        if self.number == usize::MAX {
            None
        } else {
            Some(self.number)
        }
    }

    pub(crate) fn copied(&self) -> WideLink
        ensures { result ≡ self.now }
    {
        WideLink {
            number: self.number,
        }
    }
}
