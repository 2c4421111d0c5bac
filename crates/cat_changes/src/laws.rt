//! What holds of changes texts. Each function's contract is a law, and its body is empty.

ghost use Rattle.cat_changes.specs.Laws.{GivesOrLacks, HasOneList, HasOnePlace, LacksOneName, SaysOrIsWrong};

/// Given the names of dropped schemas, a text is that of one list of kinds. So `read_changes` gives back the
/// kinds whose text `changes_text` gave.
pub fn each_text_has_one_list()
    ensures { HasOneList }
{}

/// A text is wrong at one place at most, and one that is wrong somewhere is no changes text. Where names are
/// lacking, one is the first. So the text and the names leave `read_changes` one answer beside want of memory.
pub fn each_text_has_one_fault()
    ensures place { HasOnePlace }
    ensures wrong { SaysOrIsWrong }
    ensures name { LacksOneName }
    ensures lacks { GivesOrLacks }
{}
