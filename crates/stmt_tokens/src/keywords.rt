ghost use Rattle.std.specs.Prelude.{◌≡◌, map};
ghost use Rattle.std.specs.Str.{str_eq_ignore_ascii_case};
ghost use Rattle.stmt_tokens.specs.Tokens as spec;

use crate::token::{KEYWORDS, Keyword, Kind};

fn same_word(a: &[u8], b: &[u8]) -> bool
    ensures { result ≡ str_eq_ignore_ascii_case a.now b.now }
{
    a.eq_ignore_ascii_case(b)
}

fn lookup(mut table: &[(&str, Keyword)], word: &[u8]) -> Kind
    ensures { result ≡ spec.lookup (map (λ e. (e.0.now, e.1)) table.entry.now) word.now }
{
    while let [entry, rest @ ..] = table {
        if same_word(entry.0.as_bytes(), word) {
            return Kind::Keyword(entry.1);
        }
        table = rest;
    }
    Kind::Word
}

/// The keyword that a word is without regard to case, or a plain word.
#[tactic(auto, unfolding(crate::specs::Tokens::keyword))]
pub fn keyword(word: &[u8]) -> Kind
    ensures { result ≡ spec.keyword word.now }
{
    lookup(&KEYWORDS, word)
}

fn same_keyword(a: Keyword, b: Keyword) -> bool
    ensures { result ≡ spec.is_same a b }
{
    a == b
}

fn word_in(mut table: &[(&'static str, Keyword)], keyword: Keyword) -> &'static str
    ensures { result.now ≡ spec.word_in (map (λ e. (e.0.now, e.1)) table.entry.now) keyword }
{
    while let [entry, rest @ ..] = table {
        if same_keyword(keyword, entry.1) {
            return entry.0;
        }
        table = rest;
    }
    ""
}

/// A keyword as it is printed.
pub fn word_of(keyword: Keyword) -> &'static str
    ensures { result.now ≡ spec.the_word keyword }
{
    word_in(&KEYWORDS, keyword)
}
