//! Shadow operations: their names, kinds, colours and order.
//! Tests: tests/cases, bad_lines.cases, migrations.cases.
#![tactic(auto)]

mod colour;
mod deps;
mod exact;
mod kind;
mod label;
mod name_text;
mod op_name;
mod shadow;

ghost use Rattle.rb_shadow.specs.Laws.{CancellationCommutes};

pub use colour::Colour;
pub use deps::Deps;
pub use kind::Kind;
pub use label::Label;
pub use name_text::{read_name, write_name};
pub use op_name::OpName;
pub use shadow::Shadow;

/// Operations leave the same balances, numbers of cancellations and names, in whatever order
/// they were applied.
pub fn cancellation_commutes()
    ensures { CancellationCommutes }
{}
