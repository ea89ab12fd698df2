//! The forms of a line: so many words after its first.

ghost use Rattle.std.specs.Prelude.{◌≡◌, map, Some, None, MatchOption};
ghost use Rattle.script.specs.Inner.Reading.{one_of, two_of, three_of, four_of, five_of, three_and_more};

/// The one word; `None` if there are more or fewer.
pub fn one_word<'a>(words: &[&'a [u8]]) -> Option<&'a [u8]>
    ensures { MatchOption result (one_of (map (λ word. word.now) words.now) ≡ None)
        (λ it. one_of (map (λ word. word.now) words.now) ≡ Some it.now) }
{
    if words.len() != 1 {
        return None;
    }
    Some(words[0])
}

/// The two words; `None` if there are more or fewer.
pub fn two_words<'a>(words: &[&'a [u8]]) -> Option<(&'a [u8], &'a [u8])>
    ensures { MatchOption result (two_of (map (λ word. word.now) words.now) ≡ None)
        (λ it. two_of (map (λ word. word.now) words.now) ≡ Some (it.0.now, it.1.now)) }
{
    if words.len() != 2 {
        return None;
    }
    Some((words[0], words[1]))
}

/// The three words; `None` if there are more or fewer.
pub fn three_words<'a>(words: &[&'a [u8]]) -> Option<(&'a [u8], &'a [u8], &'a [u8])>
    ensures { MatchOption result (three_of (map (λ word. word.now) words.now) ≡ None)
        (λ it. three_of (map (λ word. word.now) words.now) ≡ Some (it.0.now, it.1.now, it.2.now)) }
{
    if words.len() != 3 {
        return None;
    }
    Some((words[0], words[1], words[2]))
}

/// The four words; `None` if there are more or fewer.
pub fn four_words<'a>(words: &[&'a [u8]]) -> Option<(&'a [u8], &'a [u8], &'a [u8], &'a [u8])>
    ensures { MatchOption result (four_of (map (λ word. word.now) words.now) ≡ None)
        (λ it. four_of (map (λ word. word.now) words.now) ≡ Some (it.0.now, it.1.now, it.2.now, it.3.now)) }
{
    if words.len() != 4 {
        return None;
    }
    Some((words[0], words[1], words[2], words[3]))
}

/// The five words; `None` if there are more or fewer.
pub fn five_words<'a>(
    words: &[&'a [u8]],
) -> Option<(&'a [u8], &'a [u8], &'a [u8], &'a [u8], &'a [u8])>
    ensures { MatchOption result (five_of (map (λ word. word.now) words.now) ≡ None)
        (λ it. five_of (map (λ word. word.now) words.now) ≡ Some (it.0.now, it.1.now, it.2.now, it.3.now, it.4.now)) }
{
    if words.len() != 5 {
        return None;
    }
    Some((words[0], words[1], words[2], words[3], words[4]))
}

/// Three words, and one or more after them; `None` if there are fewer.
pub fn three_words_and_more<'a>(
    words: &'a [&'a [u8]],
) -> Option<(&'a [u8], &'a [u8], &'a [u8], &'a [&'a [u8]])>
    ensures { MatchOption result (three_and_more (map (λ word. word.now) words.now) ≡ None)
        (λ it. three_and_more (map (λ word. word.now) words.now)
        ≡ Some (it.0.now, it.1.now, it.2.now, map (λ word. word.now) it.3.now)) }
{
    if words.len() < 4 {
        return None;
    }
    let (_, more) = words.split_at(3);
    Some((words[0], words[1], words[2], more))
}
