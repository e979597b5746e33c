//! What it means that words ask for something.

ghost use Rattle.flr_words.specs.Laws.{WordsAskForOne};

/// Words ask for one thing: no other answer of `read_words` would be right.
pub fn words_ask_for_one()
    ensures law { WordsAskForOne }
{}
