ghost use Rattle.std.specs.Prelude.{◌≡◌, length, IfOk};
ghost use Rattle.thrift_compact.specs.Cursor.{Cursor};
ghost use Rattle.thrift_compact.specs.Structs.{struct_of};
ghost use Rattle.answers.specs.Answers.{Answers};
ghost use Rattle.pq_meta.specs.Checks.{is_memory};
ghost use Rattle.pq_meta.specs.Consistency.{IsConsistent};
ghost use Rattle.pq_meta.specs.Drafts.{footer_part, no_footer};
ghost use Rattle.pq_meta.specs.Footers as spec;
ghost use Rattle.pq_meta.specs.Holding.{AnswersFooter};

use crate::checks::check_count;
use crate::columns::columns_of;
use crate::drafts::FooterDraft;
use crate::fault::MetaFault;
use crate::groups::{groups_of, rows_of};
use crate::laws::{reads_consistent, reads_what_is_held};
use crate::meta::FileMeta;
use std::alloc::Global;
use thrift_compact::{Reader, StructFault, read_struct};

/// The fields of the footer that the bytes begin with.
#[tactic(auto, using(thrift_compact::proofs::StructLemmas::not_read))]
fn read_draft<'a>(alloc: Global, footer: &'a [u8]) -> Result<FooterDraft<'a>, MetaFault>
    ensures { Answers is_memory result (spec.read_of (struct_of footer_part no_footer (length footer.now) footer.now)) }
{
    let mut reader = Reader::new(footer);
    match read_struct(alloc, &mut reader) {
        Ok(draft) => Ok(draft),
        Err(StructFault::Thrift(fault)) => Err(MetaFault::Thrift(fault)),
        Err(StructFault::Memory) => Err(MetaFault::Memory),
    }
}

/// What a footer's fields say.
#[tactic(auto, using(answers::proofs::AnswerLemmas::handed_on), unfolding(crate::specs::Footers::meta_of))]
fn meta_of(alloc: Global, draft: &FooterDraft) -> Result<FileMeta, MetaFault>
    ensures { Answers is_memory result (spec.meta_of draft.now) }
{
    if draft.version.is_none() {
        return Err(MetaFault::MissingField { id: 1 });
    }
    let Some(schema) = &draft.schema else {
        return Err(MetaFault::MissingField { id: 2 });
    };
    let Some(num_rows) = draft.num_rows else {
        return Err(MetaFault::MissingField { id: 3 });
    };
    let Some(groups) = &draft.groups else {
        return Err(MetaFault::MissingField { id: 4 });
    };
    let columns = match columns_of(alloc, schema.as_slice()) {
        Ok(columns) => columns,
        Err(fault) => return Err(fault),
    };
    let groups = match groups_of(alloc, columns.len(), groups.as_slice()) {
        Ok(groups) => groups,
        Err(fault) => return Err(fault),
    };
    match check_count(num_rows, rows_of(groups.as_slice())) {
        Ok(()) => Ok(FileMeta {
            columns,
            num_rows,
            groups,
        }),
        Err(fault) => Err(fault),
    }
}

/// The footer, or the first fault.
#[tactic(auto, using(answers::proofs::AnswerLemmas::handed_on), unfolding(crate::specs::Footers::footer_of))]
fn footer_in(alloc: Global, footer: &[u8]) -> Result<FileMeta, MetaFault>
    ensures { Answers is_memory result (spec.footer_of footer.now) }
{
    match read_draft(alloc, footer) {
        Ok(draft) => meta_of(alloc, &draft),
        Err(fault) => Err(fault),
    }
}

/// Reads the footer that some bytes begin with; what stands behind its stop is not looked at.
///
/// It answers a footer exactly where the bytes begin with one, and else the first fault: those of the
/// fields' bytes in byte order; then the footer's missing fields; then those of the schema's elements
/// in order, the number of the root's children, those of the groups with their chunks in order, and
/// the number of rows. The memory that is taken is bounded by the bytes given, whatever counts they
/// state.
pub fn read_meta(alloc: Global, footer: &[u8]) -> Result<FileMeta, MetaFault>
    // The footer, exactly where the bytes begin with one; else the first fault.
    ensures exact { Answers is_memory result (spec.footer_of footer.now) }

    // The footer that the bytes begin with, and no other; or a fault, where they begin with none.
    ensures holds { AnswersFooter footer.now result }

    // Its parts fit together: each group has a chunk for each column, of as many values as the group
    // has rows, and no field id is that of two columns.
    ensures consistent { IfOk result IsConsistent }
{
    // The laws on which the last two clauses stand.
    reads_what_is_held();
    reads_consistent();
    footer_in(alloc, footer)
}
