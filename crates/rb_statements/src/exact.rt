//! Types whose test of equality is exact.

use crate::Row;
use rb_kit::Exact;

impl Exact for Row {
    ghost use Rattle.rb_statements.specs.Exact.{rows_exact};

    ghost exact = { rows_exact };

    ghost cloned = { λ x y h. h };
}
