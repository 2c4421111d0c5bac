ghost use Rattle.std.specs.Prelude.{◌≡◌};
ghost use Rattle.lake_model.specs.Apply as apply;
ghost use Rattle.txn_buf.specs.Drafts.{bare, work_of};

use crate::seen::Seen;
use lake_model::{Ref, is_ref};

impl Seen {
    /// Takes a schema away.
    pub fn remove_schema(&mut self, at: Ref)
        ensures { work_of self.new ≡ bare (apply.without_schema (work_of self.old) at) }
    {
        self.schemas.retain(|schema| !is_ref(schema.at, at));
    }

    /// Takes a table away.
    pub fn remove_table(&mut self, at: Ref)
        ensures { work_of self.new ≡ bare (apply.without_table (work_of self.old) at) }
    {
        self.tables.retain(|table| !is_ref(table.at, at));
    }
}
