//! The messages of a site's answer, one at a time, for a caller that reads no JSON.
ghost use Rattle.std.specs.Prelude.{◌≡◌, ◌≢◌, ◌⊎◌, ◌↔◌, Some, None, pos};
ghost use Rattle.std.specs.List.{slice_get};
ghost use Rattle.serde_json.specs.Data.{Data};
ghost use Rattle.rb_capi.specs.Sends.{IsHandedMessage, kept_messages};
ghost use Rattle.rb_capi.specs.Sites.{kept_text};

use crate::copy::copy_text;
use crate::handles::{Handle, SiteHandle};
use crate::sent::find_message;
use crate::statuses::{NO_MEMORY, NONE, OK, REFUSED};
use std::alloc::Global;

/// Copies the message of this index (0 is the first) of the kept answer to the beginning of `out`, as much of it as
/// fits, without a line feed: it is the line of the event that each receiver is to be given. `length` is how many bytes
/// it has, and `to` the site that it is for, or 255 for each other site. The messages of an answer of several lines, as
/// that to a `resend`, are counted through all lines.
///
/// Statuses: 0; 1 if there is no site; 3 if the answer has no such message; 4 for want of memory. The site stays as it
/// was. After 1, 3 and 4 `out` and `to` do too, and `length` is 0.
#[unsafe(no_mangle)]
pub extern "C" fn rbbank_site_send(
    alloc: Global,
    site: &mut SiteHandle,
    index: usize,
    out: &mut [u8],
    length: &mut usize,
    to: &mut u8,
) -> i32
    ensures sent { result ≡ pos 0 → (m : Data) × (slice_get (kept_messages (kept_text site.old.value)) index ≡ Some m)
        × IsHandedMessage m out.old out.new length.new to.new }
    ensures none { (result ≡ pos 1) ↔ (site.old.value ≡ None) }
    ensures no_message { result ≡ pos 3 → slice_get (kept_messages (kept_text site.old.value)) index ≡ None }
    ensures nothing { result ≢ pos 0 → (out.new ≡ out.old) × (length.new ≡ 0) × (to.new ≡ to.old) }
    ensures same { site.new.value ≡ site.old.value }
    ensures statuses { (result ≡ pos 0) ⊎ ((result ≡ pos 1) ⊎ ((result ≡ pos 3) ⊎ (result ≡ pos 4))) }
{
    *length = 0;
    let Some(kept) = site.take(alloc) else {
        return NONE;
    };
    let found = find_message(alloc, kept.answer.as_slice(), index);
    site.put(kept);
    match found {
        Ok(Some(sent)) => {
            *to = sent.to;
            *length = copy_text(sent.text.as_bytes(), out);
            OK
        }
        Ok(None) => REFUSED,
        Err(_) => NO_MEMORY,
    }
}
