//! The numbers that the crates above the money have, in literals.
ghost use Rattle.std.specs.Prelude.{◌≡◌};
ghost use Rattle.rb_scratch.specs.declared.request.TheConstants.{MOST_REQUESTS};
ghost use Rattle.rb_lines.specs.declared.limits.TheConstants.{LINE_LIMIT, MOST_READS};
ghost use Rattle.rb_branch.specs.declared.limits.TheConstants.{MOST_RECEIPTS, MOST_SEATS};
ghost use Rattle.rb_cli.specs.declared.words.TheConstants.{MOST_TELLERS};

/// A batch has at most 16 requests. A line has at most 1,048,576 bytes, and a program makes at most
/// 4,000,000,000 reads. A branch has at most 1,024 seats, and a seat 4,000,000,000 receipts. A run has at
/// most 64 tellers.
pub fn other_numbers()
    ensures requests { MOST_REQUESTS ≡ 16 }
    ensures line_bytes { LINE_LIMIT ≡ 1048576 }
    ensures reads { MOST_READS ≡ 4000000000 }
    ensures seats { MOST_SEATS ≡ 1024 }
    ensures receipts { MOST_RECEIPTS ≡ 4000000000 }
    ensures tellers { MOST_TELLERS ≡ 64 }
{}
