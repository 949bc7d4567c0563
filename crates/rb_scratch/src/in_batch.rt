//! The operations that the requests of a batch make.
ghost use Rattle.std.specs.Prelude.{◌≡◌, ◌<◌, ◌∷◌, ◌++◌, [], IfOk};
ghost use Rattle.rb_ledger.specs.Valid.{IsValid};
ghost use Rattle.rb_token.specs.Token.{Token};
ghost use Rattle.rb_token.specs.Seen.{Shows};
ghost use Rattle.rb_scratch.specs.Batches.{made_in_batch};

use crate::generator::{carry_out, decide};
use crate::request::Request;
use crate::run_fault::RunFault;
use rb_ledger::Ledger;
use rb_shadow::{Kind, Shadow};
use rb_token::TokenView;

/// The operation that the request makes in a batch at the token's site: the one that it makes by itself, but for a
/// withdrawal or a transfer that would be declined. Nothing changes.
pub fn generate_in_batch(
    ledger: &Ledger,
    token: &TokenView,
    request: &Request,
) -> Result<Shadow, RunFault>
    requires { token.now.me < ledger.now.settings.sites }
    ensures made { (known : Token) → Shows token.now known →
        result ≡ made_in_batch ledger.now.settings token.now.me ledger.now.entries known request.now }
    ensures valid { IfOk result (λ made. IsValid ledger.now.settings (ledger.now.entries ++ made ∷ [])) }
{
    let effect = match decide(ledger, request) {
        Ok(effect) => effect,
        Err(why) => return Err(RunFault::Refused(why)),
    };
    if let Kind::Declined = effect.kind {
        return Err(RunFault::Declined);
    }
    match carry_out(ledger, token, effect) {
        Ok(shadow) => Ok(shadow),
        Err(why) => Err(RunFault::Refused(why)),
    }
}
