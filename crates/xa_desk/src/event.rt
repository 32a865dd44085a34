//! What a desk did with its managers, in order.

use crate::operation::Operation;

/// A request was sent, or its completion was collected.
#[derive(Clone, Copy)]
pub(crate) enum Event {
    Sent(Operation),
    Collected(Operation),
}
