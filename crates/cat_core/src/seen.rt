use cat_view::Version;
use std::sync::Arc;

/// The version of a snapshot, shared by all who see it.
#[derive(Drop)]
pub struct Seen<F> {
    pub base: u64,
    pub version: Arc<Version<F>>,
}

/// What a session has open.
#[derive(Drop)]
pub struct Slot<F> {
    pub read_only: bool,
    pub seen: Seen<F>,
}
