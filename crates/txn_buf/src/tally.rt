use crate::seen::Seen;

/// What a buffer keeps of its own list of changes: how much the rows weigh that it makes, whether it compacts, and from
/// the first change on the schemas and tables that the transaction sees.
#[derive(Debug, Drop)]
pub struct Tally {
    pub(crate) weight: u64,
    pub(crate) compacts: bool,
    pub(crate) seen: Option<Seen>,
}
