//! Ids, from the objects that have them.
ghost use Rattle.std.specs.Prelude.{◌≡◌, codes, MatchResult, None, Some};
ghost use Rattle.serde_json.specs.View.{view};
ghost use Rattle.rb_history.specs.declared.fault.LineFault.TheVariants.{Bad};
ghost use Rattle.rb_history.specs.Fields.{field};
ghost use Rattle.rb_history.specs.Ids.{id_at};

use crate::fault::LineFault;
use crate::id::{RequestId, is_id};
use crate::keys::key;
use serde_json::Value;

/// The id that an object has takes the place of another.
pub fn put_id(value: &Value, id: &mut RequestId) -> Result<(), LineFault>
    ensures { MatchResult result
        (λ _. field (codes "id") id_at (view value.now) ≡ Some id.new)
        (λ why. why ≡ Bad → field (codes "id") id_at (view value.now) ≡ None) }
{
    let member = value.get(key!(id)).ok_or(LineFault::Bad)?;
    match member.as_str() {
        Some(text) if is_id(text) => {
            id.set(text);
            Ok(())
        }
        _ => Err(LineFault::Bad),
    }
}
