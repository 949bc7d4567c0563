//! The numbers of a bank, in figures.
ghost use Rattle.std.specs.Prelude.{◌≡◌, ◌<◌};
ghost use Rattle.rb_money.specs.declared.accounts.TheConstants.{LONGEST_NAME};
ghost use Rattle.rb_money.specs.declared.cents.TheConstants.{MOST_CENTS};
ghost use Rattle.rb_money.specs.declared.limits.TheConstants.{MOST_ACCOUNTS, MOST_BALANCE, MOST_BLUE, MOST_EPOCH};
ghost use Rattle.rb_money.specs.declared.limits.TheConstants.{MOST_HISTORY, MOST_INBOX, MOST_OPERATIONS, MOST_RED};
ghost use Rattle.rb_money.specs.declared.limits.TheConstants.{MOST_SITES, MOST_SITES_OF_VERSION_1};
ghost use Rattle.rb_money.specs.declared.rate.TheConstants.{BASIS_POINTS_OF_ALL, MOST_RATE};

/// The numbers that definitions and code name, each in figures: how many of a thing there may be at most, an
/// amount and a start in cents, a rate in basis points, a name's length in bytes of UTF-8. Those of lines,
/// batches, seats and tellers are in rb_uses.
pub fn numbers()
    ensures sites { MOST_SITES ≡ 16 }
    ensures sites_of_version_1 { MOST_SITES_OF_VERSION_1 ≡ 8 }
    ensures accounts { MOST_ACCOUNTS ≡ 1000 }
    ensures name_bytes { LONGEST_NAME ≡ 32 }
    ensures cents { MOST_CENTS ≡ 100000000000 }
    ensures rate { MOST_RATE ≡ 10000 }
    ensures basis_points_of_all { BASIS_POINTS_OF_ALL ≡ 10000 }
    ensures blue { MOST_BLUE ≡ 1000000 }
    ensures red { MOST_RED ≡ 1000000 }
    ensures inbox { MOST_INBOX ≡ 4096 }
    ensures history { MOST_HISTORY ≡ 100000000 }
    ensures epoch { MOST_EPOCH ≡ 4000000000 }
    ensures operations { MOST_OPERATIONS ≡ 17000000 }
    ensures balance { MOST_BALANCE < 1800000000000000000 }
{}
