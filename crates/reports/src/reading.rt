//! Reading a report from front to back.

ghost use Rattle.std.specs.Prelude.{◌≡◌, ℕ, ◌+◌, ◌<◌, ◌≤◌, ◌==◌, ◌^◌, List, ◌∷◌, ◌++◌, Some, length, drop, codes, decimal, position};
ghost use Rattle.std.specs.Prelude.{MatchOption, IfSome};
ghost use Rattle.std.specs.Str.{IsUtf8};
ghost use Rattle.queries.specs.declared.field.Field.{Field};
ghost use Rattle.queries.specs.Report.{report_text, query_text, queries_text};
ghost use Rattle.reports.specs.Inner.Pieces.{IsFreeOf, lines_text};

/// The first line of a report or of a query's part, and what is behind it.
#[derive(Clone, Copy)]
pub struct Head<'a> {
    /// The word of its first number.
    pub number: &'a [u8],
    /// Its second number: how many queries or lines follow.
    pub count: u64,
    pub rest: &'a [u8],
}

/// The part of a query, and what is behind it.
#[derive(Clone, Copy)]
pub struct Query<'a> {
    /// How many lines the query's answer has.
    pub count: u64,
    /// These lines.
    pub lines: &'a [u8],
    pub rest: &'a [u8],
}

/// The index of the first such byte.
fn index_of(text: &[u8], byte: u8) -> Option<usize>
    ensures { result ≡ position (λ other. other == byte) text.now }
{
    text.iter().position(|other| *other == byte)
}

/// What is before the first such byte, and what is behind it.
pub fn cut(text: &[u8], byte: u8) -> Option<(&[u8], &[u8])>
    ensures shorter { IfSome result (λ parts. length parts.1.now < length text.now) }
    ensures parts { (front back : List ℕ) → IsFreeOf byte front → text.now ≡ front ++ byte ∷ back
        → MatchOption result ⊥ (λ parts. (parts.0.now ≡ front) × (parts.1.now ≡ back)) }
{
    let end = index_of(text, byte)?;
    Some((&text[..end], &text[end + 1..]))
}

/// What is behind this beginning.
fn behind<'a>(text: &'a [u8], beginning: &[u8]) -> Option<&'a [u8]>
    ensures { (back : List ℕ) → text.now ≡ beginning.now ++ back → MatchOption result ⊥ (λ rest. rest.now ≡ back) }
{
    text.strip_prefix(beginning)
}

/// The word as text, if it is text.
fn text_of(word: &[u8]) -> Option<&str>
    ensures { MatchOption result (¬ IsUtf8 word.now) (λ text. (text.now ≡ word.now) × IsUtf8 word.now) }
{
    std::str::from_utf8(word).ok()
}

/// The number that is written so.
fn number_of(word: &[u8]) -> Option<u64>
    ensures { (number : ℕ) → number < 2 ^ 64 → decimal number ≡ word.now → result ≡ Some number }
{
    text_of(word)?.parse().ok()
}

/// A line of two words and, behind each, a number.
fn head_of<'a>(text: &'a [u8], first: &[u8], second: &[u8]) -> Option<Head<'a>>
    ensures { (number count : ℕ) (back : List ℕ) → count < 2 ^ 64
        → text.now ≡ first.now ++ (decimal number ++ 32 ∷ (second.now ++ (decimal count ++ 10 ∷ back)))
        → MatchOption result ⊥ (λ head. (head.number.now ≡ decimal number) × (head.count ≡ count) × (head.rest.now ≡ back)) }
{
    let numbers = behind(text, first)?;
    let (number, words) = cut(numbers, b' ')?;
    let counts = behind(words, second)?;
    let (count, rest) = cut(counts, b'\n')?;
    let count = number_of(count)?;
    Some(Head {
        number,
        count,
        rest,
    })
}

/// The first line of a report, and the parts of its queries.
pub fn report_head(report: &[u8]) -> Option<Head<'_>>
    ensures { (version : ℕ) (answers : List (List (List Field))) → report.now ≡ report_text version answers
        → MatchOption result ⊥ (λ head. (head.number.now ≡ decimal version) × (head.count ≡ length answers)
        × (head.rest.now ≡ queries_text 0 answers)) }
{
    head_of(report, b"version ", b"queries ")
}

/// The first line of a query's part, and what is behind it.
fn query_head(text: &[u8]) -> Option<Head<'_>>
    ensures { (index : ℕ) (lines : List (List Field)) (back : List ℕ) → text.now ≡ query_text index lines ++ back
        → MatchOption result ⊥ (λ head. (head.count ≡ length lines) × (head.rest.now ≡ lines_text lines ++ back)) }
{
    head_of(text, b"query ", b"rows ")
}

/// So many lines, and what is behind them.
fn lines_of(text: &[u8], count: u64) -> Option<(&[u8], &[u8])>
    ensures { (lines : List (List Field)) (back : List ℕ) → length lines ≡ count → text.now ≡ lines_text lines ++ back
        → MatchOption result ⊥ (λ parts. (parts.0.now ≡ lines_text lines) × (parts.1.now ≡ back)) }
{
    let mut rest = text;
    for _index in 0..count {
        let (_line, more) = cut(rest, b'\n')?;
        rest = more;
    }
    Some(text.split_at(text.len() - rest.len()))
}

/// The part of a query, and what is behind it.
pub fn query_of(text: &[u8]) -> Option<Query<'_>>
    ensures { (index : ℕ) (lines : List (List Field)) (back : List ℕ) → text.now ≡ query_text index lines ++ back
        → MatchOption result ⊥ (λ query. (query.count ≡ length lines) × (query.lines.now ≡ lines_text lines)
        × (query.rest.now ≡ back)) }
{
    let head = query_head(text)?;
    let (lines, rest) = lines_of(head.rest, head.count)?;
    Some(Query {
        count: head.count,
        lines,
        rest,
    })
}

/// What is behind the parts of so many queries.
pub fn behind_queries(text: &[u8], count: usize) -> Option<&[u8]>
    ensures { (first : ℕ) (answers : List (List (List Field))) → text.now ≡ queries_text first answers → count ≤ length answers
        → MatchOption result ⊥ (λ rest. rest.now ≡ queries_text (first + count) (drop count answers)) }
{
    let mut rest = text;
    for _index in 0..count {
        let query = query_of(rest)?;
        rest = query.rest;
    }
    Some(rest)
}
