//! What holds of the rules when a batch is applied. Each function's contract is a law, and its body is empty.

ghost use Rattle.std.specs.Prelude.{◌⊎◌};
ghost use Rattle.cat_rules.specs.ColumnRule.{IsColumnless, IsCrowdedColumn};
ghost use Rattle.cat_rules.specs.DataFileRule.{IsDataFileUnmatched};
ghost use Rattle.cat_rules.specs.DeleteFileRule.{IsDeleteFileDiffering, IsDeleteFileUnmatched, IsSecondDeleteFile};
ghost use Rattle.cat_rules.specs.Laws.{CountersStay, FieldsStay, InlinedIdsStay, RowIdsStay, StaysAfter};
ghost use Rattle.cat_rules.specs.SchemaRule.{IsSchemaNameUsed};
ghost use Rattle.cat_rules.specs.TableRule.{IsTableNameUsed, IsTableUnmatched};

/// A batch that is past all kept snapshots and makes a new one owes these rules at the new one alone.
pub fn rules_stay()
    ensures schema_names { StaysAfter (λ _. IsSchemaNameUsed) }
    ensures tables { StaysAfter IsTableUnmatched }
    ensures table_names { StaysAfter (λ _. IsTableNameUsed) }
    ensures columnless { StaysAfter (λ _. IsColumnless) }
    ensures crowded { StaysAfter (λ _. IsCrowdedColumn) }
    ensures data_files { StaysAfter IsDataFileUnmatched }
    ensures delete_files { StaysAfter (λ t seen k. IsDeleteFileUnmatched t seen k ⊎ IsDeleteFileDiffering seen k) }
    ensures second_delete_files { StaysAfter (λ _. IsSecondDeleteFile) }
{}

/// Field ids and row ids stay below counters that grow, and so do the ids of a catalogue whose counters grow up to their last value.
pub fn counters_stay()
    ensures fields { FieldsStay }
    ensures row_ids { RowIdsStay }
    ensures inlined_ids { InlinedIdsStay }
    ensures ids { CountersStay }
{}
