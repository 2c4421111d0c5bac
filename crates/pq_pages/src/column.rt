//! What was had of a chunk.

ghost use Rattle.std.specs.Prelude.{◌≡◌, ◌+◌, ◌++◌, ◌<◌, ◌^◌, IfOk, OnOk, Some, length};
ghost use Rattle.pq_encodings.specs.Values.{count_of, values_of};
ghost use Rattle.answers.specs.Answers.{Gives};
ghost use Rattle.pq_pages.specs.Answers.{is_memory};
ghost use Rattle.pq_pages.specs.Pages.{cells_in, cells_of, flags_of, joined, no_cells};
ghost use Rattle.pq_pages.specs.Pages as pages;

use crate::chunk::{ChunkSpec, RawCells};
use crate::fault::PageFault;
use crate::headers::Coding;
use crate::levels::Levels;
use crate::values::{count_of, indexed_values, no_values, plain_values, run_values};
use pq_encodings::{ByteLists, Physical, Plain};
use std::alloc::{AllocError, Global};
use std::marker::Model;
use std::mem;

/// The cells that were had of a chunk, and its last dictionary.
#[derive(Debug, Drop)]
pub struct Column {
    defined: Vec<bool>,
    plain: Plain,
    dictionary: Option<Plain>,
}

impl Model for Column {
    ghost use Rattle.std.specs.Prelude.{option_map};
    ghost use Rattle.pq_encodings.specs.Values.{values_of};
    ghost use Rattle.pq_pages.specs.Pages.{Chunk};

    ghost Value = { Chunk };

    ghost view = { λ c. record { defined = c.defined.items; values = values_of c.plain; dictionary = option_map values_of c.dictionary } };
}

/// Items behind others. Those of a first page stay where they lie.
fn behind<T: Drop>(had: Vec<T>, more: Vec<T>) -> Result<Vec<T>, AllocError>
    ensures { IfOk result (λ all. all.items ≡ had.items ++ more.items) }
{
    if had.is_empty() {
        return Ok(more);
    }
    let mut all = had;
    let mut more = more;
    all.append(&mut more)?;
    Ok(all)
}

/// Values behind others of the same kind.
fn join_values(had: Plain, more: Plain) -> Result<Plain, AllocError>
    ensures { IfOk result (λ p. values_of p ≡ joined (values_of had) (values_of more)) }
{
    Ok(match (had, more) {
        (Plain::Bools(had), Plain::Bools(more)) => Plain::Bools(behind(had, more)?),
        (Plain::I32s(had), Plain::I32s(more)) => Plain::I32s(behind(had, more)?),
        (Plain::I64s(had), Plain::I64s(more)) => Plain::I64s(behind(had, more)?),
        (Plain::Strings(had), Plain::Strings(more)) => {
            let all = behind(had.into_vec(), more.into_vec())?;
            Plain::Strings(ByteLists::from_vec(all))
        }
        (had, _) => had,
    })
}

/// Flags behind others.
fn join_flags(flags: &mut Vec<bool>, more: &Levels) -> Result<(), AllocError>
    ensures { OnOk result (flags.new.items ≡ flags.old.items ++ flags_of more.now) }
{
    match more {
        Levels::All(count) => flags.resize(flags.len() + *count as usize, true),
        Levels::Given(more) => flags.extend_from_slice(more.as_slice()),
    }
}

impl Column {
    pub fn new(alloc: Global, kind: Physical) -> Column
        ensures { result ≡ no_cells kind }
    {
        Column {
            defined: Vec::new(alloc),
            plain: no_values(alloc, kind),
            dictionary: None,
        }
    }

    /// How many cells were had.
    pub fn len(&self) -> u64
        ensures count { result ≡ length self.now.defined }
        ensures small { result < 2 ^ 63 }
    {
        self.defined.len() as u64
    }

    /// The values of a data page, behind those that were had.
    pub fn page_values(
        &self,
        alloc: Global,
        spec: &ChunkSpec,
        coding: Coding,
        count: u64,
        bytes: &[u8],
    ) -> Result<Plain, PageFault>
        ensures { Gives is_memory values_of result (pages.page_values spec.now self.now coding count bytes.now) }
    {
        let place = count_of(&self.plain);
        match coding {
            Coding::Plain => plain_values(alloc, spec.kind, spec.text, place, count, bytes),
            Coding::Indices => indexed_values(alloc, spec, place, &self.dictionary, count, bytes),
            Coding::Runs => run_values(alloc, count, bytes),
        }
    }

    /// Puts cells behind those that were had.
    pub fn add_cells(
        &mut self,
        alloc: Global,
        levels: &Levels,
        values: Plain,
    ) -> Result<(), AllocError>
        ensures { OnOk result (self.new ≡ record self.old { defined = self.old.defined ++ flags_of levels.now; values = joined self.old.values (values_of values) }) }
    {
        join_flags(&mut self.defined, levels)?;
        let had = mem::replace(&mut self.plain, Plain::Bools(Vec::new(alloc)));
        self.plain = join_values(had, values)?;
        Ok(())
    }

    /// Takes a dictionary in place of an earlier one.
    pub fn set_dictionary(&mut self, entries: Plain)
        ensures { self.new ≡ record self.old { dictionary = Some (values_of entries) } }
    {
        self.dictionary = Some(entries);
    }

    pub fn into_cells(self) -> RawCells
        ensures { cells_of result ≡ cells_in self }
    {
        let Column {
            defined,
            plain,
            dictionary: _,
        } = self;
        RawCells { defined, plain }
    }
}
