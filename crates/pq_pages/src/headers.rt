//! What a page's header says: its required fields, and the codes of its encodings.

ghost use Rattle.std.specs.Prelude.{◌≡◌};
ghost use Rattle.pq_pages.specs.Headers as headers;

use crate::drafts::{DataDraft, DataV2Draft, DictionaryDraft, PageDraft};
use crate::fault::PageFault;
use pq_encodings::Physical;

/// A page, as its header says it.
#[derive(Clone, Copy, Debug, PartialEq, Eq)]
pub enum Page {
    /// Data, of so many cells. The encoding of the levels stands where there are levels.
    Data {
        count: u32,
        encoding: i32,
        levels: Option<i32>,
    },
    /// Data of the second form, with the lengths of both kinds of levels.
    DataV2 {
        count: u32,
        encoding: i32,
        levels: u32,
        repetition: u32,
    },
    /// A dictionary of so many values.
    Dictionary {
        count: u32,
        encoding: i32,
    },
    /// Any other page: it is passed over.
    Other,
}

/// A page and how many bytes it has behind its header.
#[derive(Clone, Copy, Debug, PartialEq, Eq)]
pub struct PageHeader {
    pub size: u32,
    pub page: Page,
}

/// How the values of a data page stand.
#[derive(Clone, Copy, Debug, PartialEq, Eq)]
pub enum Coding {
    Plain,
    Indices,
    Runs,
}

#[tactic(auto, unfolding(crate::specs::Headers::data_of))]
fn data_of(optional: bool, draft: &DataDraft) -> Result<Page, PageFault>
    ensures { result ≡ headers.data_of optional draft.now }
{
    let Some(count) = draft.num_values else {
        return Err(PageFault::Missing { id: 1 });
    };
    let Some(encoding) = draft.encoding else {
        return Err(PageFault::Missing { id: 2 });
    };
    if optional && draft.levels_encoding.is_none() {
        return Err(PageFault::Missing { id: 3 });
    }
    let levels = if optional {
        draft.levels_encoding
    } else {
        None
    };
    Ok(Page::Data {
        count,
        encoding,
        levels,
    })
}

#[tactic(auto, unfolding(crate::specs::Headers::data_v2_of))]
fn data_v2_of(draft: &DataV2Draft) -> Result<Page, PageFault>
    ensures { result ≡ headers.data_v2_of draft.now }
{
    let Some(count) = draft.num_values else {
        return Err(PageFault::Missing { id: 1 });
    };
    let Some(encoding) = draft.encoding else {
        return Err(PageFault::Missing { id: 4 });
    };
    let Some(levels) = draft.levels_length else {
        return Err(PageFault::Missing { id: 5 });
    };
    let Some(repetition) = draft.repetition_length else {
        return Err(PageFault::Missing { id: 6 });
    };
    Ok(Page::DataV2 {
        count,
        encoding,
        levels,
        repetition,
    })
}

#[tactic(auto, unfolding(crate::specs::Headers::dictionary_of))]
fn dictionary_of(draft: &DictionaryDraft) -> Result<Page, PageFault>
    ensures { result ≡ headers.dictionary_of draft.now }
{
    let Some(count) = draft.num_values else {
        return Err(PageFault::Missing { id: 1 });
    };
    let Some(encoding) = draft.encoding else {
        return Err(PageFault::Missing { id: 2 });
    };
    Ok(Page::Dictionary { count, encoding })
}

#[tactic(auto, unfolding(crate::specs::Headers::page_of))]
fn page_of(optional: bool, kind: i32, draft: &PageDraft) -> Result<Page, PageFault>
    ensures { result ≡ headers.page_of optional kind draft.now }
{
    match kind {
        0 => match &draft.data_page {
            Some(found) => data_of(optional, found),
            None => Err(PageFault::Missing { id: 5 }),
        },
        2 => match &draft.dictionary_page {
            Some(found) => dictionary_of(found),
            None => Err(PageFault::Missing { id: 7 }),
        },
        3 => match &draft.data_page_v2 {
            Some(found) => data_v2_of(found),
            None => Err(PageFault::Missing { id: 8 }),
        },
        _ => Ok(Page::Other),
    }
}

/// The header, once all fields that its page needs are there.
#[tactic(auto, unfolding(crate::specs::Headers::header_of))]
pub fn header_of(optional: bool, draft: &PageDraft) -> Result<PageHeader, PageFault>
    ensures { result ≡ headers.header_of optional draft.now }
{
    let Some(kind) = draft.kind else {
        return Err(PageFault::Missing { id: 1 });
    };
    let Some(size) = draft.size else {
        return Err(PageFault::Missing { id: 3 });
    };
    match page_of(optional, kind, draft) {
        Ok(page) => Ok(PageHeader { size, page }),
        Err(fault) => Err(fault),
    }
}

/// How values of this type stand under an encoding's code.
#[tactic(auto, unfolding(crate::specs::Headers::coding_of))]
pub fn coding_of(kind: Physical, code: i32) -> Result<Coding, PageFault>
    ensures { result ≡ headers.coding_of kind code }
{
    match code {
        0 => Ok(Coding::Plain),
        2 => Ok(Coding::Indices),
        8 => Ok(Coding::Indices),
        3 => match kind {
            Physical::Boolean => Ok(Coding::Runs),
            _ => Err(PageFault::Encoding { code }),
        },
        _ => Err(PageFault::Encoding { code }),
    }
}

/// Whether the code says that a dictionary's values are plain.
#[tactic(auto, unfolding(crate::specs::Headers::plain_coded))]
pub fn plain_coded(code: i32) -> Result<(), PageFault>
    ensures { result ≡ headers.plain_coded code }
{
    match code {
        0 => Ok(()),
        2 => Ok(()),
        _ => Err(PageFault::Encoding { code }),
    }
}

/// Whether the code, if there is one, says that levels are runs.
#[tactic(auto, unfolding(crate::specs::Headers::runs_coded))]
pub fn runs_coded(code: Option<i32>) -> Result<(), PageFault>
    ensures { result ≡ headers.runs_coded code }
{
    match code {
        None => Ok(()),
        Some(3) => Ok(()),
        Some(code) => Err(PageFault::Encoding { code }),
    }
}
