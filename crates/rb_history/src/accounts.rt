//! Accounts, by their names.
ghost use Rattle.std.specs.Prelude.{◌≡◌};
ghost use Rattle.rb_history.specs.Requests.{account_place};

use rb_money::{Config, Place};

/// The place of an account's name: nowhere if no account has it.
#[inline(always)]
pub fn place(config: &Config, name: &str) -> Place
    ensures { result ≡ account_place config.now name.now }
{
    match config.accounts().place(name) {
        Some(place) => place,
        None => Place::NOWHERE,
    }
}
