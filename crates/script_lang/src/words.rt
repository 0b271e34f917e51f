// How many words a line has behind its first.
ghost use Rattle.std.specs.Prelude.{◌≡◌, Some, None, MatchOption};
ghost use Rattle.std.specs.Option.{option_copied};
ghost use Rattle.script_lang.specs.Items.{one_of, two_of, two_or_three_of, three_of, four_of, two_and_more_of};

use tree_words::Words;

// The one word that is left, if there is one alone.
pub(crate) fn one(mut words: Words<'_>) -> Option<&[u8]>
    ensures { MatchOption result (one_of words.entry ≡ None) (λ word. one_of words.entry ≡ Some word.now) }
{
    let word = words.next()?;
    if words.is_empty() { Some(word) } else { None }
}

// The two words that are left, if there are two.
pub(crate) fn two(mut words: Words<'_>) -> Option<(&[u8], &[u8])>
    ensures { MatchOption result (two_of words.entry ≡ None)
        (λ two. two_of words.entry ≡ Some (two.0.now, two.1.now)) }
{
    let first = words.next()?;
    let second = one(words)?;
    Some((first, second))
}

// The two words that are left, and the third one where there is one, if there are two or three.
pub(crate) fn two_or_three(mut words: Words<'_>) -> Option<(&[u8], &[u8], Option<&[u8]>)>
    ensures { MatchOption result (two_or_three_of words.entry ≡ None)
        (λ parts. two_or_three_of words.entry ≡ Some (parts.0.now, parts.1.now, option_copied parts.2)) }
{
    let first = words.next()?;
    let second = words.next()?;
    let third = words.next();
    if words.is_empty() {
        Some((first, second, third))
    } else {
        None
    }
}

// The three words that are left, if there are three.
pub(crate) fn three(mut words: Words<'_>) -> Option<(&[u8], &[u8], &[u8])>
    ensures { MatchOption result (three_of words.entry ≡ None)
        (λ three. three_of words.entry ≡ Some (three.0.now, three.1.now, three.2.now)) }
{
    let first = words.next()?;
    let (second, third) = two(words)?;
    Some((first, second, third))
}

// The four words that are left, if there are four.
pub(crate) fn four(mut words: Words<'_>) -> Option<(&[u8], &[u8], &[u8], &[u8])>
    ensures { MatchOption result (four_of words.entry ≡ None)
        (λ four. four_of words.entry ≡ Some (four.0.now, four.1.now, four.2.now, four.3.now)) }
{
    let first = words.next()?;
    let (second, third, fourth) = three(words)?;
    Some((first, second, third, fourth))
}

// Two words, and those that are left behind them.
pub(crate) fn two_and_more(mut words: Words<'_>) -> Option<(&[u8], &[u8], Words<'_>)>
    ensures { MatchOption result (two_and_more_of words.entry ≡ None)
        (λ parts. two_and_more_of words.entry ≡ Some (parts.0.now, parts.1.now, parts.2)) }
{
    let first = words.next()?;
    let second = words.next()?;
    Some((first, second, words))
}
