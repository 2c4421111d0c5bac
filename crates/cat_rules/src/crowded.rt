ghost use Rattle.std.specs.Prelude.{◌≡◌, true, IfOk, map};
ghost use Rattle.cat_tables.specs.Table.{IsAscending};
ghost use Rattle.cat_rows.specs.declared.batch.Key.{Key};
ghost use Rattle.cat_rules.specs.First.{FirstBad};
ghost use Rattle.cat_rules.specs.Places.{is_sooner};
ghost use Rattle.cat_rules.specs.Rows.{Names};
ghost use Rattle.cat_spans.specs.Spans.{Extent};
ghost use Rattle.cat_tables.specs.Interval.{interval_of};
ghost use Rattle.cat_rows.specs.Batches.{tables_of};
ghost use Rattle.cat_spans.specs.Groups.{group_of};
ghost use Rattle.cat_rules.specs.Crowded.{IsBare, IsCrowded, extent_within, name_at};
ghost use Rattle.cat_rules.specs.Lookups.{table_of};

use crate::dated::Dated;
use cat_rows::{CatRows, Key};
use cat_spans::{Group, Span, first_gap, first_past};
use cat_tables::find_row;
use lake_types::NoMemory;
use std::alloc::Global;

/// Rows of which only so many of a group may lie over one number.
pub trait Grouped<R> {
    /// The group of a row, and the numbers that it covers.
    ghost extent: { Self → R → Extent };

    /// The key that a row names.
    ghost name: { R → Key };

    fn span<'a>(&self, row: &'a R) -> Span<'a>
        ensures { result ≡ extent self.now row.now };

    fn key(&self, row: &R) -> Key
        ensures { result ≡ name row.now };
}

/// The snapshots at which both a row and its table are valid, from the first kept one on.
pub fn span_with_table<'a, R: Dated>(
    rows: &CatRows,
    first: u64,
    group: Group<'a>,
    row: &R,
    table: u64,
) -> Span<'a>
    ensures { result ≡ extent_within first (group_of group.entry) (interval_of R.validity row.now)
        (table_of (tables_of rows.now) table) }
{
    match find_row(rows.table(), &table) {
        Some(table) => {
            let both = row.interval().common(table.interval()).from(first);
            Span::new(group, both.begin, both.end)
        }
        None => Span::new(group, 0, Some(0)),
    }
}

/// The key that the row at a place names.
fn key_at<R, T: Grouped<R>>(rule: &T, rows: &[R], place: Option<usize>) -> Option<Key>
    ensures { result ≡ name_at T.name rows.now place }
{
    let row = rows.get(place?)?;
    Some(rule.key(row))
}

/// What each row covers, in the order of the rows.
fn spans_of<'a, R, T: Grouped<R>>(
    alloc: Global,
    rule: &T,
    rows: &'a [R],
) -> Result<Vec<Span<'a>>, NoMemory>
    ensures { IfOk result (λ spans. spans.items ≡ map (T.extent rule.now) rows.now) }
{
    rows.iter().map(|row| rule.span(row)).collect(alloc)
}

/// The first of the keys that rows name which are one too many. Rows stand in the order of these keys.
pub fn first_crowded<R, T: Grouped<R>>(
    alloc: Global,
    rule: &T,
    limit: usize,
    rows: &[R],
) -> Result<Option<Key>, NoMemory>
    requires { IsAscending (λ a b. is_sooner (T.name a) (T.name b) ≡ true) rows.now }
    ensures { IfOk result (FirstBad (Names T.name (IsCrowded T.name (T.extent rule.now) limit rows.now) rows.now)) }
{
    let spans = spans_of(alloc, rule, rows)?;
    let place = first_past(alloc, limit, &spans)?;
    Ok(key_at(rule, rows, place))
}

/// The first of the keys that rows name which have a number that none of some others covers, in their group.
pub fn first_bare<R, S, T: Grouped<R>, U: Grouped<S>>(
    alloc: Global,
    rule: &T,
    rows: &[R],
    other_rule: &U,
    others: &[S],
) -> Result<Option<Key>, NoMemory>
    requires { IsAscending (λ a b. is_sooner (T.name a) (T.name b) ≡ true) rows.now }
    ensures { IfOk result (FirstBad (Names T.name (IsBare (T.extent rule.now) (U.extent other_rule.now) others.now) rows.now)) }
{
    let spans = spans_of(alloc, rule, rows)?;
    let other_spans = spans_of(alloc, other_rule, others)?;
    let place = first_gap(alloc, &spans, &other_spans)?;
    Ok(key_at(rule, rows, place))
}
