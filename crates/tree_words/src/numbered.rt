// The words of a text, each with its number.
ghost use Rattle.std.specs.Prelude.{◌≡◌, [], MatchResult};
ghost use Rattle.tree_words.specs.Rests.{none_of, words_of, Takes};
ghost use Rattle.tree_words.specs.declared.refusal.WordsRefusal.TheVariants as refusal;

use crate::refusal::WordsRefusal;
use crate::words::Words;
use std::marker::Model;

/// The words of a text from one on, and that one's number.
#[derive(Drop)]
pub(crate) struct Numbered<'a> {
    words: Words<'a>,
    place: usize,
}

impl<'a> Model for Numbered<'a> {
    ghost use Rattle.std.specs.Prelude.{◌+◌, ◌<◌, ◌^◌, length};
    ghost use Rattle.tree_words.specs.Rests.{Rest};

    ghost Value = { Rest };

    ghost view = { λ n. record { place = n.place; words = n.words } };

    ghost invariant = { λ n. n.place + length n.words < 2 ^ 64 };
}

impl<'a> Numbered<'a> {
    // The words of a text, from the first on, which has number 0.
    pub(crate) fn of(text: &'a [u8]) -> Numbered<'a>
        ensures words { result.words ≡ words_of text.now }
        ensures place { result.place ≡ 0 }
    {
        Numbered {
            words: Words::of(text),
            place: 0,
        }
    }

    // Whether no word is left.
    pub(crate) fn is_empty(&self) -> bool
        ensures { result ≡ none_of self.now.words }
    {
        self.words.is_empty()
    }

    // The number of the next word.
    pub(crate) fn place(&self) -> usize
        ensures { result ≡ self.now.place }
    {
        self.place
    }

    // Takes the next word. Where none is left, the refusal has its number.
    pub(crate) fn next(&mut self) -> Result<&'a [u8], WordsRefusal>
        ensures { MatchResult result (λ word. Takes self.old self.new word.now)
            (λ why. (self.old.words ≡ []) × (why ≡ refusal.Word self.old.place)) }
    {
        match self.words.next() {
            Some(word) => {
                self.place += 1;
                Ok(word)
            }
            None => Err(WordsRefusal::Word(self.place)),
        }
    }
}
