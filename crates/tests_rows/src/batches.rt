//! Batches on the catalogue's rows: they are applied whole or refused.

use cat_rows::{
    Batch, CatRow, CatRowList, CatRows, Key, SchemaRow, apply_batch, apply_reserved, fits_batch,
    reserve_batch,
};
use lake_types::{Copied, Listed, Words};
use std::alloc::Global;

/// Adds a schema to a batch's rows, where there is memory for it.
fn add_schema(alloc: Global, adds: &mut CatRowList, id: u64, begin: u64) {
    if let Ok(schema_name) = Words::of(alloc, "s") {
        let _added = adds
            .push(CatRow::Schema(SchemaRow {
                schema_id: id,
                begin_snapshot: begin,
                end_snapshot: None,
                schema_name,
            }))
            .is_ok();
    }
}

/// Two schemas, in falling order.
fn first_batch(alloc: Global) -> Batch {
    let mut adds = Listed::new(alloc);
    add_schema(alloc, &mut adds, 5, 0);
    add_schema(alloc, &mut adds, 2, 0);
    Batch {
        removes: Listed::new(alloc),
        ends: Listed::new(alloc),
        adds,
    }
}

/// Takes one schema away, ends the other, and puts one in the place of the first.
fn second_batch(alloc: Global) -> Batch {
    let mut removes = Listed::new(alloc);
    let _removed = removes.push(Key::Schema(5)).is_ok();
    let mut ends = Listed::new(alloc);
    let _ended = ends.push((Key::Schema(2), 7)).is_ok();
    let mut adds = Listed::new(alloc);
    add_schema(alloc, &mut adds, 5, 7);
    Batch {
        removes,
        ends,
        adds,
    }
}

/// So many schemas, by rising id from 0.
fn many_schemas(alloc: Global, count: u64) -> Batch {
    let mut adds = Listed::new(alloc);
    for id in 0..count {
        add_schema(alloc, &mut adds, id, 0);
    }
    Batch {
        removes: Listed::new(alloc),
        ends: Listed::new(alloc),
        adds,
    }
}

/// Takes so many schemas away.
fn many_removals(alloc: Global, count: u64) -> Batch {
    let mut removes = Listed::new(alloc);
    for id in 0..count {
        let _removed = removes.push(Key::Schema(id)).is_ok();
    }
    Batch {
        removes,
        ends: Listed::new(alloc),
        adds: Listed::new(alloc),
    }
}

/// Applies a batch, where it fits.
fn is_applied(alloc: Global, rows: &mut CatRows, batch: &Batch) -> bool {
    if fits_batch(rows, batch) {
        apply_batch(alloc, rows, batch).is_ok()
    } else {
        false
    }
}

/// The same in room that is made before.
fn is_applied_in_room(alloc: Global, rows: &mut CatRows, batch: &Batch) -> bool {
    if !fits_batch(rows, batch) {
        return false;
    }
    let Ok(own) = batch.copy(alloc) else {
        return false;
    };
    match reserve_batch(rows, batch) {
        Ok(()) => {
            apply_reserved(rows, own);
            true
        }
        Err(_) => false,
    }
}

/// Whether the schemas have these ids, begins and ends.
fn has_schemas(rows: &CatRows, wanted: &[(u64, u64, Option<u64>)]) -> bool {
    rows.schema().len() == wanted.len()
        && rows.schema().iter().zip(wanted).all(|(row, it)| {
            row.schema_id == it.0 && row.begin_snapshot == it.1 && row.end_snapshot == it.2
        })
}

#[test]
fn batches_are_applied_whole(rt: HostRuntime) {
    let alloc = rt.alloc();
    let mut rows = CatRows::empty(alloc);
    assert!(rt; is_applied(alloc, &mut rows, &first_batch(alloc)));
    assert!(rt; !is_applied(alloc, &mut rows, &first_batch(alloc)));
    assert!(rt; has_schemas(&rows, &[(2, 0, None), (5, 0, None)]));
    assert!(rt; is_applied_in_room(alloc, &mut rows, &second_batch(alloc)));
    assert!(rt; has_schemas(&rows, &[(2, 0, Some(7)), (5, 7, None)]));
}

#[test]
fn many_rows_are_taken_away(rt: HostRuntime) {
    let alloc = rt.alloc();
    let mut rows = CatRows::empty(alloc);
    assert!(rt; is_applied(alloc, &mut rows, &many_schemas(alloc, 10)));
    assert!(rt; is_applied(alloc, &mut rows, &many_removals(alloc, 9)));
    assert!(rt; has_schemas(&rows, &[(9, 0, None)]));
}
