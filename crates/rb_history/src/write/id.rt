//! Ids, added at the end of bytes.
ghost use Rattle.rb_history.specs.Adds.{Adds};
ghost use Rattle.rb_history.specs.Ids.{between_if_any};

use crate::write::append::append;
use std::alloc::AllocError;

/// An id between two texts, or nothing if there is no id.
pub fn append_id(out: &mut Vec<u8>, front: &str, id: &[u8], back: &str) -> Result<(), AllocError>
    ensures { Adds result out.old.items out.new.items (between_if_any front.now id.now back.now) }
{
    if id.is_empty() {
        return Ok(());
    }
    append(out, front)?;
    out.extend_from_slice(id)?;
    append(out, back)
}
