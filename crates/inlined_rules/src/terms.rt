ghost use Rattle.std.specs.Prelude.{◌≡◌, ◌≤◌, IfOk, filter, length, map, take};
ghost use Rattle.std.specs.List.{prefix_len};
ghost use Rattle.std.specs.Option.{option_copied};
ghost use Rattle.cat_tables.specs.Table.{RisesByKey};
ghost use Rattle.cat_rows.specs.Keys.{column_key};
ghost use Rattle.inlined_rules.specs.Terms as spec;

use cat_rows::ColumnRow;
use cat_tables::{Interval, is_before};
use cat_texts::type_of;
use lake_types::{ColType, NoMemory};
use std::alloc::Global;
use std::marker::Model;

/// A row of a column without its texts: when it is valid, and its type, where that is known.
#[derive(Clone, Copy)]
pub(crate) struct Term {
    table_id: u64,
    column_id: u64,
    begin: u64,
    end: Option<u64>,
    column_type: Option<ColType>,
}

/// Terms that rise by table, column and begin.
#[derive(Drop)]
pub(crate) struct Terms {
    items: Vec<Term>,
}

impl Model for Terms {
    ghost use Rattle.std.specs.Prelude.{List, ◌≡◌, IfOk, filter, map};
    ghost use Rattle.inlined_rules.specs.declared.terms.Term.{Term};
    ghost use Rattle.cat_tables.specs.Table.{RisesByKey};
    ghost use Rattle.inlined_rules.specs.Terms.{term_key};

    ghost Value = { List Term };

    ghost view = { λ t. t.items.items };

    ghost invariant = { λ t. RisesByKey term_key t.items.items };
}

fn term_of(row: &ColumnRow) -> Term
    ensures { result ≡ spec.term_of row.now }
{
    Term {
        table_id: row.table_id,
        column_id: row.column_id,
        begin: row.begin_snapshot,
        end: row.end_snapshot,
        column_type: type_of(row.column_type.as_str()),
    }
}

fn is_of_type(term: &Term, column_type: ColType) -> bool
    ensures { result ≡ spec.is_of_type column_type term.now }
{
    match term.column_type {
        Some(own) => own == column_type,
        None => false,
    }
}

fn is_of_column(term: &Term, table: u64, column: u32) -> bool
    ensures { result ≡ spec.is_of_column table column term.now }
{
    term.table_id == table && term.column_id == u64::from(column)
}

fn is_below(term: &Term, limit: &[u64]) -> bool
    ensures { result ≡ spec.is_below limit.now term.now }
{
    [term.table_id, term.column_id, term.begin]
        .as_slice()
        .cmp(limit)
        .is_lt()
}

/// A key past the terms of a column that begin before the end, and not past its other ones.
fn limit_of(table: u64, column: u32, end: Option<u64>) -> [u64; 3]
    ensures { result ≡ spec.limit_of table column end }
{
    match end {
        Some(end) => [table, u64::from(column), end],
        None => [table, u64::from(column) + 1, 0],
    }
}

fn count_below(terms: &[Term], limit: &[u64]) -> usize
    requires { RisesByKey spec.term_key terms.now }
    ensures count { result ≡ prefix_len (spec.is_below limit.now) terms.now }
    ensures within { result ≤ length terms.now }
{
    terms.partition_point(|term| is_below(term, limit))
}

fn first_ones(terms: &[Term], count: usize) -> &[Term]
    requires { count ≤ length terms.now }
    ensures { result.now ≡ take count terms.now }
{
    &terms[..count]
}

/// The last of the terms below a key.
fn last_below<'a>(terms: &'a [Term], limit: &[u64]) -> Option<&'a Term>
    requires { RisesByKey spec.term_key terms.now }
    ensures { option_copied result ≡ spec.last_below limit.now terms.now }
{
    let count = count_below(terms, limit);
    first_ones(terms, count).last()
}

fn terms_of_rows(alloc: Global, rows: &[ColumnRow]) -> Result<Vec<Term>, NoMemory>
    ensures { IfOk result (λ terms. terms.items ≡ map spec.term_of rows.now) }
{
    rows.iter().map(|row| term_of(row)).collect(alloc)
}

fn terms_of_type(alloc: Global, terms: &[Term], column_type: ColType) -> Result<Vec<Term>, NoMemory>
    ensures { IfOk result (λ found. found.items ≡ filter (spec.is_of_type column_type) terms.now) }
{
    terms
        .iter()
        .filter(|term| is_of_type(term, column_type))
        .copied()
        .collect(alloc)
}

impl Terms {
    ghost use Rattle.cat_rows.specs.Keys.{column_key};
    ghost use Rattle.inlined_rules.specs.Terms as spec;

    /// The terms of all rows.
    pub(crate) fn of_rows(alloc: Global, rows: &[ColumnRow]) -> Result<Terms, NoMemory>
        requires { RisesByKey column_key rows.now }
        ensures { IfOk result (λ terms. terms ≡ map spec.term_of rows.now) }
    {
        let items = terms_of_rows(alloc, rows)?;
        Ok(Terms { items })
    }

    /// Those of a type.
    pub(crate) fn of_type(&self, alloc: Global, column_type: ColType) -> Result<Terms, NoMemory>
        ensures { IfOk result (λ terms. terms ≡ filter (spec.is_of_type column_type) self.now) }
    {
        let items = terms_of_type(alloc, self.items.as_slice(), column_type)?;
        Ok(Terms { items })
    }

    /// Whether a term of the column and a stay have a snapshot in common. Where the terms of a column don't overlap,
    /// each ends before the next, so the last one that begins before the stay's end tells.
    pub(crate) fn are_met(&self, table: u64, column: u32, stay: Interval) -> bool
        ensures { result ≡ spec.are_met table column stay self.now }
    {
        let limit = limit_of(table, column, stay.end);
        match last_below(self.items.as_slice(), limit.as_slice()) {
            Some(term) => is_of_column(term, table, column) && is_before(stay.begin, term.end),
            None => false,
        }
    }
}
