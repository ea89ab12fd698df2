use thiserror::Error;

/// What is wrong with a word, or with the end of a text. The texts say what was expected.
#[derive(Clone, Copy, Debug, PartialEq, Eq, Error)]
pub enum WordFault {
    // Of any word.
    /// It is empty: two spaces follow each other, or one is at an end of the line.
    #[error("one space separates words")]
    Empty,
    /// It begins like a comment.
    #[error("a comment is a line of its own")]
    Comment,
    /// It ends with CR.
    #[error("lines end with LF alone")]
    CarriageReturn,
    #[error("begins with a byte order mark")]
    ByteOrderMark,
    /// A byte below 20 or above 7e.
    #[error("has a byte that is not allowed")]
    NotText,
    #[error("has a capital letter")]
    Capital,
    /// It is the last one, and the line needs more.
    #[error("a word is missing after it")]
    Missing,
    #[error("a word too many")]
    TooMany,
    // Of lines of jobs.
    #[error("begins no line")]
    NoJobLine,
    /// It begins a line of live jobs alone.
    #[error("with --live only")]
    LiveOnly,
    #[error("outside of a job")]
    Outside,
    #[error("inside a job")]
    Inside,
    /// It begins a job inside another.
    #[error("the job before it has no end")]
    NoEnd,
    #[error("no worker")]
    NoWorker,
    /// It has not the form of a name.
    #[error("no name of a table")]
    NoName,
    #[error("no such table")]
    NoTable,
    #[error("no number")]
    NoNumber,
    #[error("no number of a column, 0 to 255")]
    NoColumn,
    #[error("no value")]
    NoValue,
    // Of plans.
    #[error("a plan begins with `query`")]
    NoQuery,
    #[error("begins no part of a plan")]
    NoPart,
    /// It begins a part that the plan has already.
    #[error("stands there twice")]
    Twice,
    /// It begins a part that comes before one that the plan has already.
    #[error("stands too late")]
    TooLate,
    #[error("no comparison")]
    NoComparison,
    #[error("no aggregate")]
    NoAggregate,
    // Of plans that do not fit.
    #[error("the ninth condition")]
    NinthCondition,
    #[error("the third column to group by")]
    ThirdGroup,
    #[error("the ninth aggregate")]
    NinthAggregate,
    #[error("its table has fewer columns")]
    AfterLastColumn,
    #[error("no table is joined")]
    NoJoin,
    #[error("a join is by a column of numbers")]
    JoinOfBytes,
    #[error("its column is of another kind")]
    OtherKind,
    #[error("only numbers are summed")]
    SumOfBytes,
    // Of settings.
    #[error("`workers N` is expected")]
    NoWorkers,
    #[error("`replicas N` is expected")]
    NoReplicas,
    #[error("`table NAME KIND..` is expected")]
    NoTables,
    #[error("no number from 1 to 16")]
    NoCount,
    #[error("no kind of a column: `int`, or `bytes1` to `bytes64`")]
    NoKind,
    /// An earlier table has it.
    #[error("a name that stands there twice")]
    NameTwice,
    #[error("the 17th table")]
    TooManyTables,
    #[error("the 17th column")]
    TooManyColumns,
    #[error("more than 512 bytes in a row")]
    RowTooWide,
    #[error("it begins like a journal")]
    Journal,
}

impl WordFault {
    /// What is wrong with a word by itself, wherever it stands; otherwise this.
    pub(crate) fn of(word: &[u8], otherwise: WordFault) -> WordFault {
        if word.is_empty() {
            WordFault::Empty
        } else if word.starts_with(b"\xef\xbb\xbf") {
            WordFault::ByteOrderMark
        } else if word.ends_with(b"\r") {
            WordFault::CarriageReturn
        } else if !is_text(word) {
            WordFault::NotText
        } else if word.starts_with(b"#") {
            WordFault::Comment
        } else if word.iter().any(|byte| byte.is_ascii_uppercase()) {
            WordFault::Capital
        } else {
            otherwise
        }
    }
}

/// Whether all bytes are allowed in a line of text: from 20 to 7e.
pub fn is_text(word: &[u8]) -> bool {
    word.iter().all(|byte| 0x20 <= *byte && *byte <= 0x7e)
}
