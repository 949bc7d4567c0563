//! Types whose test of equality is exact.

use crate::Request;
use rb_kit::Exact;

impl Exact for Request {
    ghost use Rattle.rb_scratch.specs.Exact.{requests_exact};

    ghost exact = { requests_exact };

    ghost cloned = { λ x y h. h };
}
