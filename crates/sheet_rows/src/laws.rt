//! What holds of rows and sheets. Each function's contract is a law, and its body is empty.

ghost use Rattle.sheet_rows.specs.Laws.{LaysCells, PlacesRise, ReadsBack, ReadsIdsBack, WeighsRows};

/// What `lay` of `field_map` lays of a sheet that has a cell for each row in each column is the sheet's rows by
/// their cells, each laid into the columns.
pub fn lays_cells()
    ensures { LaysCells }
{}

/// A sheet that was made of rows reads as these rows, each laid into the columns; with a column of row ids, as
/// these rows with their ids.
pub fn reads_back()
    ensures cells { ReadsBack }
    ensures ids { ReadsIdsBack }
{}

/// The weight of a sheet that was made of rows is that of the rows, laid into the columns.
pub fn weighs_rows()
    ensures { WeighsRows }
{}

/// The places that a delete file lists rise, and lie below the rows of its data file.
pub fn places_rise()
    ensures { PlacesRise }
{}
