//! The batch of a commit breaks none of the twelve rules of a sane catalogue. Each function's contract is a law, and its
//! body is empty.
#![tactic(auto)]

ghost use Rattle.cat_rules.specs.ColumnRule.{AreColumnsBad};
ghost use Rattle.cat_rules.specs.ColumnStatsRule.{IsColumnStatsBad};
ghost use Rattle.cat_rules.specs.CounterRule.{IsIdBad};
ghost use Rattle.cat_rules.specs.DataFileRule.{IsDataFileBad};
ghost use Rattle.cat_rules.specs.DeleteFileRule.{IsDeleteFileBad};
ghost use Rattle.cat_rules.specs.HistoryRule.{IsHistoryBad};
ghost use Rattle.cat_rules.specs.InlinedRule.{AreInlinedBad};
ghost use Rattle.cat_rules.specs.IntervalRule.{IsIntervalBad};
ghost use Rattle.cat_rules.specs.LayoutRule.{IsLayoutBad};
ghost use Rattle.cat_rules.specs.SchemaRule.{IsSchemaNameBad};
ghost use Rattle.cat_rules.specs.TableRule.{IsTableBad};
ghost use Rattle.cat_rules.specs.TableStatsRule.{IsStatsBad};
ghost use Rattle.commit_rules.specs.Example.{OneTableFits};
ghost use Rattle.commit_rules.specs.Laws.{HeadMoves, RuleStays, RulesStay, SaneIsSettled};

/// The rules about a catalogue's history: its layout (1), snapshots and changes texts (2), validity intervals (3) and the
/// counters of the newest snapshot (12).
pub fn history_stays()
    ensures layout { RuleStays IsLayoutBad }
    ensures history { RuleStays IsHistoryBad }
    ensures intervals { RuleStays IsIntervalBad }
    ensures ids { RuleStays IsIdBad }
{}

/// The rules about names of schemas (4), tables (5) and columns (6).
pub fn schema_rules_stay()
    ensures schemas { RuleStays IsSchemaNameBad }
    ensures tables { RuleStays IsTableBad }
    ensures columns { RuleStays AreColumnsBad }
{}

/// The rules about data files and the paths of files (7), delete files (8), and the statistics of columns (9) and tables
/// (11).
pub fn file_rules_stay()
    ensures data_files { RuleStays IsDataFileBad }
    ensures delete_files { RuleStays IsDeleteFileBad }
    ensures column_stats { RuleStays IsColumnStatsBad }
    ensures table_stats { RuleStays IsStatsBad }
{}

/// The rule about rows that lie in the catalogue itself (10).
pub fn inlined_rule_stays()
    ensures { RuleStays AreInlinedBad }
{}

/// All twelve, where the rows before broke none.
pub fn rules_stay()
    ensures { RulesStay }
{}

/// What a commit rests on: where no rule is broken, no row begins or ends past the head, and its snapshot is the next
/// head.
pub fn heads_move()
    ensures settled { SaneIsSettled }
    ensures next { HeadMoves }
{}

/// What the law asks is met: by the smallest commit that makes a table with a file.
pub fn one_table_fits()
    ensures { OneTableFits }
{}
