//! What holds of tokens that are spelled. Each function's contract is a law, and its body is empty.

ghost use Rattle.stmt_tokens.specs.Laws.{AreCutAgain, BytesAreCut, KeywordsAreCut, NamesAreCut, NegativesAreCut, NumbersAreCut, QuotedTokensStand, SignsAreCut, TextsAreCut};

/// The line that spells tokens has these tokens, where each of them is cut off its own spelling.
pub fn spelled_tokens_are_cut_again()
    ensures { AreCutAgain }
{}

/// Each form of token that a line can have is cut off its own spelling before a blank.
pub fn forms_are_cut()
    ensures keywords { KeywordsAreCut }
    ensures signs { SignsAreCut }
    ensures names { NamesAreCut }
    ensures texts { TextsAreCut }
    ensures bytes { BytesAreCut }
    ensures numbers { NumbersAreCut }
    ensures negatives { NegativesAreCut }
{}

/// What is cut off as a text, a quoted name or bytes is spelled so in the line.
pub fn quoted_tokens_stand()
    ensures { QuotedTokensStand }
{}
