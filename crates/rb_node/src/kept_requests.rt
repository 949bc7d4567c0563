//! The requests of a kept event.

use rb_kit::List;
use rb_scratch::Request;

/// A request, or a batch of them.
#[derive(Drop)]
pub enum KeptRequests {
    One(Request),
    All(List<Request>),
}
