//! Types whose test of equality is exact.

use crate::OpName;
use rb_kit::Exact;

impl Exact for OpName {
    ghost use Rattle.rb_shadow.specs.Exact.{names_exact};

    ghost exact = { names_exact };

    ghost cloned = { λ x y h. h };
}
