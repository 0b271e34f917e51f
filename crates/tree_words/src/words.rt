// The words of a text, one after the other.
ghost use Rattle.std.specs.Prelude.{◌≡◌, ◌∷◌, [], position, IfNone, MatchOption};
ghost use Rattle.std.specs.Option.{option_copied};
ghost use Rattle.tree_words.specs.Rests.{is_space, none_of, words_left, words_of};

use std::marker::Model;

/// The words of a text from one on, seen as their list. Between two words stands one space.
#[derive(Drop)]
pub struct Words<'a> {
    rest: Option<&'a [u8]>,
}

impl<'a> Model for Words<'a> {
    ghost use Rattle.std.specs.Prelude.{ℕ, List};
    ghost use Rattle.std.specs.Option.{option_copied};
    ghost use Rattle.tree_words.specs.Rests.{words_left};

    ghost Value = { List (List ℕ) };

    ghost view = { λ w. words_left (option_copied w.rest) };
}

impl<'a> Words<'a> {
    /// The words of a text, from the first on. The empty text has one word, which is empty. Takes no
    /// memory, nor do the other methods.
    pub fn of(text: &'a [u8]) -> Words<'a>
        ensures { result ≡ words_of text.now }
    {
        Words { rest: Some(text) }
    }

    /// Whether no word is left.
    pub fn is_empty(&self) -> bool
        ensures { result ≡ none_of self.now }
    {
        match self.rest {
            Some(_) => false,
            None => true,
        }
    }

    /// Takes the next word, where one is left.
    pub fn next(&mut self) -> Option<&'a [u8]>
        ensures word { MatchOption result (self.old ≡ []) (λ word. self.old ≡ word.now ∷ self.new) }
        ensures none { IfNone result (self.new ≡ []) }
    {
        let text = self.rest?;
        let (word, rest) = cut(text);
        self.rest = rest;
        Some(word)
    }

    /// The text of the words that are left, where one is.
    pub fn text(self) -> Option<&'a [u8]>
        ensures { MatchOption result (self.entry ≡ []) (λ text. self.entry ≡ words_of text.now) }
    {
        self.rest
    }
}

// Where the first space stands.
fn space(text: &[u8]) -> Option<usize>
    ensures { result ≡ position is_space text.now }
{
    text.iter().position(|byte| *byte == b' ')
}

// The first word of a text, and what stands behind its space, if there is a space.
fn cut(text: &[u8]) -> (&[u8], Option<&[u8]>)
    ensures { words_of text.entry.now ≡ result.0.now ∷ words_left (option_copied result.1) }
{
    match space(text) {
        Some(end) => (&text[..end], Some(&text[end + 1..])),
        None => (text, None),
    }
}
