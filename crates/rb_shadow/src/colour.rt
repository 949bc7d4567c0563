//! Colours of operations.
ghost use Rattle.std.specs.Prelude.{◌≡◌};
ghost use Rattle.rb_shadow.specs.Operations.{same_colour};

/// The colour of an operation: blue ones may come in any order, red ones come in one order, the same at every site.
#[derive(Clone, Copy, Debug, PartialEq, Eq)]
pub enum Colour {
    Blue,
    Red,
}

impl Colour {
    /// Whether the two are the same.
    #[inline(always)]
    pub fn same(self, other: Colour) -> bool
        ensures { result ≡ same_colour self other }
    {
        match (self, other) {
            (Colour::Blue, Colour::Blue) | (Colour::Red, Colour::Red) => true,
            _ => false,
        }
    }
}
