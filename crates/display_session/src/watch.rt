//! What is kept for a host that asks for the rows that changed.
use view_changes::RowChange;

/// What is kept from when a host asks until it asks again.
#[derive(Clone, Copy)]
pub(crate) struct Watch {
    /// How many events the journal had then.
    pub(crate) events: u32,
    /// What covers all that was replaced since then.
    pub(crate) replaced: RowChange,
}
