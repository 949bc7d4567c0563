//! Names of operations.
ghost use Rattle.std.specs.Prelude.{◌≡◌};
ghost use Rattle.rb_shadow.specs.Operations.{number_of, row_of, shown_colour};
ghost use Rattle.rb_shadow.specs.Sound.{is_absent, is_foreign, limit_of};

use crate::Colour;
use rb_money::Limits;

/// The n-th blue operation of a site, or the n-th red one of all: sites are numbered from 0, operations
/// from 1.
#[derive(Clone, Copy, Debug, PartialEq, Eq)]
pub enum OpName {
    Blue { site: u8, n: u32 },
    Red { n: u32 },
}

impl OpName {
    /// The number in the name, from 1.
    pub fn number(self) -> u32
        ensures { result ≡ number_of self }
    {
        match self {
            OpName::Blue { n, .. } => n,
            OpName::Red { n } => n,
        }
    }

    /// The row of the name, for operations that are kept in rows: first that of the red ones, then that of the
    /// first site's blue ones, and so on.
    pub fn row(self) -> usize
        ensures { result ≡ row_of self }
    {
        match self {
            OpName::Blue { site, .. } => usize::from(site) + 1,
            OpName::Red { .. } => 0,
        }
    }

    /// The colour that the name shows.
    #[inline(always)]
    pub fn colour(self) -> Colour
        ensures { result ≡ shown_colour self }
    {
        match self {
            OpName::Blue { .. } => Colour::Blue,
            OpName::Red { .. } => Colour::Red,
        }
    }

    /// Whether it is a blue name of another site than the home.
    pub fn is_foreign(self, home: u8) -> bool
        ensures { result ≡ is_foreign self home }
    {
        match self {
            OpName::Blue { site, .. } => site != home,
            OpName::Red { .. } => false,
        }
    }

    /// Whether it is a blue name of a site that a bank of this number of sites doesn't have.
    pub(crate) fn is_absent(self, sites: u8) -> bool
        ensures { result ≡ is_absent sites self }
    {
        match self {
            OpName::Blue { site, .. } => site >= sites,
            OpName::Red { .. } => false,
        }
    }

    /// The greatest number that a name of its colour may have.
    pub(crate) fn most(self, limits: Limits) -> u32
        ensures { result ≡ limit_of limits self }
    {
        match self {
            OpName::Blue { .. } => limits.blue,
            OpName::Red { .. } => limits.red,
        }
    }
}
