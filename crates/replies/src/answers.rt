ghost use Rattle.std.specs.Prelude.{◌≡◌, ◌++◌, OnOk, OnErr};
ghost use Rattle.lake_types.specs.Kinds.{kind_text};
ghost use Rattle.lake_model.specs.Texts as spec;
ghost use Rattle.replies.specs.Texts.{BeginsWith};

use crate::bytes::{push_name, push_number, push_numbers, push_table, push_text, push_words};
use cat_changes::changes_text;
use lake_model::{Answer, Counter};
use lake_types::{Clash, Copied, Kind, Listed, NoMemory};
use std::alloc::Global;

fn counter_word(counter: Counter) -> &'static str
    ensures { result.now ≡ spec.counter_text counter }
{
    match counter {
        Counter::Row { .. } => "row",
        Counter::Field { .. } => "field",
        Counter::Catalog => "catalog",
        Counter::File => "file",
        Counter::Snapshot => "snapshot",
        Counter::History => "history",
    }
}

/// Adds words and then a kind of change, as the changes text of that kind alone.
fn push_kind(alloc: Global, out: &mut Vec<u8>, words: &str, kind: &Kind) -> Result<(), NoMemory>
    ensures ok { OnOk result (out.new.items ≡ out.old.items ++ (words.now ++ kind_text kind.now)) }
    ensures err { OnErr result (BeginsWith out.new.items out.old.items) }
{
    let mut kinds = Listed::new(alloc);
    kinds.push(kind.copy(alloc)?)?;
    let text = changes_text(alloc, &kinds)?;
    push_text(out, words, text.as_str())?;
    Ok(())
}

/// Adds words and then a conflict: the snapshot, the kind of the committing list, and that of the snapshot.
fn push_clash(alloc: Global, out: &mut Vec<u8>, words: &str, clash: &Clash) -> Result<(), NoMemory>
    ensures ok { OnOk result (out.new.items ≡ out.old.items ++ (words.now ++ spec.clash_text clash.now)) }
    ensures err { OnErr result (BeginsWith out.new.items out.old.items) }
{
    push_number(out, words, clash.snapshot)?;
    push_kind(alloc, out, " ", &clash.mine)?;
    push_kind(alloc, out, " with ", &clash.theirs)?;
    Ok(())
}

/// Adds the text of an answer, with line feeds as they are.
pub fn push_answer(alloc: Global, out: &mut Vec<u8>, answer: &Answer) -> Result<(), NoMemory>
    ensures ok { OnOk result (out.new.items ≡ out.old.items ++ spec.answer_text answer.now) }
    ensures err { OnErr result (BeginsWith out.new.items out.old.items) }
{
    match answer {
        Answer::Done => push_words(out, "ok"),
        Answer::Number { n } => push_number(out, "ok ", *n),
        Answer::TooLong => push_words(out, "line too long"),
        Answer::NotBuilt => push_words(out, "not built"),
        Answer::Syntax { at } => push_number(out, "syntax at ", *at),
        Answer::InTransaction => push_words(out, "in transaction"),
        Answer::NoTransaction => push_words(out, "no transaction"),
        Answer::ReadOnly => push_words(out, "read only"),
        Answer::Mixed => push_words(out, "mixed"),
        Answer::NoSchema { name } => push_name(out, "no schema ", name),
        Answer::NoTable { table } => push_table(out, "no table ", table),
        Answer::NoColumn { name } => push_name(out, "no column ", name),
        Answer::NameUsed { name } => push_name(out, "name used ", name),
        Answer::NotEmpty { name } => push_name(out, "not empty ", name),
        Answer::NotNull { name } => push_name(out, "not null ", name),
        Answer::WrongType { name } => push_name(out, "wrong type ", name),
        Answer::NoPromotion { name } => push_name(out, "no promotion ", name),
        Answer::LastColumn => push_words(out, "last column"),
        Answer::Arity { want, got } => push_numbers(out, "arity ", *want, *got),
        Answer::ManyColumns => push_words(out, "many columns"),
        Answer::TooLarge => push_words(out, "too large"),
        Answer::Spent { counter } => push_text(out, "spent ", counter_word(*counter)),
        Answer::Conflict(clash) => push_clash(alloc, out, "conflict ", clash),
        Answer::Pinned { base } => push_number(out, "pinned ", *base),
        Answer::NotKept { first, head } => push_numbers(out, "not kept ", *first, *head),
        Answer::Disk => push_words(out, "! disk"),
        Answer::Keeper => push_words(out, "! keeper"),
        Answer::Damaged { name } => push_text(out, "damaged ", name.as_str()),
        Answer::NameTaken { name } => push_text(out, "name taken ", name.as_str()),
        Answer::Memory => push_words(out, "no memory"),
    }
}
