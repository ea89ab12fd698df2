//! Schema files that do not read, and the word at which they do not.

use requests::misread_settings;
use script::{ScriptFault, read_settings};
use std::alloc::{AllocError, Global};
use std::test::Fail;

/// A text, and its fault.
type Case = (&'static [u8], &'static str);

const SETTINGS: [Case; 33] = [
    // What is missing at the end.
    (b"", "line 1: bad setting: `workers N` is expected"),
    (
        b"# nothing\n\n",
        "line 3: bad setting: `workers N` is expected",
    ),
    (
        b"workers 2",
        "line 2: bad setting: `replicas N` is expected",
    ),
    (
        b"workers 2\nreplicas 2\n",
        "line 3: bad setting: `table NAME KIND..` is expected",
    ),
    // Their order.
    (
        b"replicas 2\n",
        "line 1: bad setting: 'replicas': `workers N` is expected",
    ),
    (
        b"workers 2\ntable acct int\n",
        "line 2: bad setting: 'table': `replicas N` is expected",
    ),
    (
        b"workers 2\nreplicas 2\nworkers 2\n",
        "line 3: bad setting: 'workers': `table NAME KIND..` is expected",
    ),
    (
        b"workers 2\nreplicas 2\ntable acct int\nbegin\n",
        "line 4: bad setting: 'begin': `table NAME KIND..` is expected",
    ),
    // Counts.
    (
        b"workers\n",
        "line 1: bad setting: 'workers': a word is missing after it",
    ),
    (
        b"workers 0\n",
        "line 1: bad setting: '0': no number from 1 to 16",
    ),
    (
        b"workers 17\n",
        "line 1: bad setting: '17': no number from 1 to 16",
    ),
    (
        b"workers two\n",
        "line 1: bad setting: 'two': no number from 1 to 16",
    ),
    (
        b"workers 16\nreplicas 17\n",
        "line 2: bad setting: '17': no number from 1 to 16",
    ),
    (
        b"workers 2 2\n",
        "line 1: bad setting: '2': a word too many",
    ),
    (
        b"workers 2 # two\n",
        "line 1: bad setting: '#': a comment is a line of its own",
    ),
    (
        b"workers 2 \n",
        "line 1: bad setting: '': one space separates words",
    ),
    (
        b" workers 2\n",
        "line 1: bad setting: '': one space separates words",
    ),
    (
        b"Workers 2\n",
        "line 1: bad setting: 'Workers': has a capital letter",
    ),
    // Bytes.
    (
        b"workers 2\r\nreplicas 2\r\n",
        "line 1: not text: '2\\u{d}': lines end with LF alone",
    ),
    (
        b"# two\r\nworkers 2\r\n",
        "line 1: not text: 'two\\u{d}': lines end with LF alone",
    ),
    (
        b"\xef\xbb\xbfworkers 2\n",
        "line 1: not text: '\u{feff}workers': begins with a byte order mark",
    ),
    (
        b"#\xc3\xa9\nworkers 2\n",
        "line 1: not text: '#\u{e9}': has a byte that is not allowed",
    ),
    (
        b"workers\t2\n",
        "line 1: not text: 'workers\\u{9}2': has a byte that is not allowed",
    ),
    // Tables.
    (
        b"workers 1\nreplicas 1\ntable\n",
        "line 3: bad setting: 'table': a word is missing after it",
    ),
    (
        b"workers 1\nreplicas 1\ntable acct\n",
        "line 3: bad setting: 'acct': a word is missing after it",
    ),
    (
        b"workers 1\nreplicas 1\ntable 1st int\n",
        "line 3: bad setting: '1st': no name of a table",
    ),
    (
        b"workers 1\nreplicas 1\ntable acct bigint\n",
        "line 3: bad setting: 'bigint': no kind of a column: `int`, or `bytes1` to `bytes64`",
    ),
    (
        b"workers 1\nreplicas 1\ntable acct bytes64 bytes65\n",
        "line 3: bad setting: 'bytes65': no kind of a column: `int`, or `bytes1` to `bytes64`",
    ),
    (
        b"workers 1\nreplicas 1\ntable acct int\n\n# again\ntable acct int\n",
        "line 6: bad setting: 'acct': a name that stands there twice",
    ),
    (
        b"workers 1\nreplicas 1\ntable acct int int int int int int int int int int int int int int int int bytes1\n",
        "line 3: bad setting: 'bytes1': the 17th column",
    ),
    (
        b"workers 1\nreplicas 1\ntable acct bytes64 bytes64 bytes64 bytes64 bytes64 bytes64 bytes64 bytes64 bytes1\n",
        "line 3: bad setting: 'bytes1': more than 512 bytes in a row",
    ),
    (
        b"workers 1\nreplicas 1\ntable a int\ntable b int\ntable c int\ntable d int\ntable e int\ntable f int\n\
        table g int\ntable h int\ntable i int\ntable j int\ntable k int\ntable l int\ntable m int\ntable n int\n\
        table o int\ntable p int\ntable q int\n",
        "line 19: bad setting: 'table': the 17th table",
    ),
    // A journal, where the schema is to be.
    (
        b"BDJ2\x02\x01\x02\0\0",
        "line 1: not text: it begins like a journal",
    ),
];

/// The fault of a text that is no schema.
fn fault_of(alloc: Global, text: &[u8]) -> Result<Option<String>, AllocError> {
    match read_settings(alloc, text) {
        Err(ScriptFault::At { line, reason }) => {
            let misread = misread_settings(alloc, text, line);
            Ok(Some(format!(in alloc; "line {line}: {reason}{misread}")?))
        }
        _ => Ok(None),
    }
}

/// The first case with another fault.
fn first_wrong(alloc: Global) -> Result<Option<usize>, Fail> {
    for (index, (text, wanted)) in SETTINGS.iter().enumerate() {
        let Some(found) = fault_of(alloc, text)? else {
            return Ok(Some(index));
        };
        if found.as_str() != *wanted {
            return Ok(Some(index));
        }
    }
    Ok(None)
}

#[test]
fn a_schema_has_its_word(rt: HostRuntime) -> Result<(), Fail> {
    assert_eq!(rt; first_wrong(rt.alloc())?, None);
    Ok(())
}

/// A text that reads has no word.
#[test]
fn a_schema_that_reads_has_no_fault(rt: HostRuntime) -> Result<(), Fail> {
    let text =
        b"workers 16\nreplicas 16\n\n# 512 bytes\ntable acct bytes64 bytes64 bytes64 bytes64 bytes64 bytes64 bytes64 bytes64";
    assert!(rt; fault_of(rt.alloc(), text)?.is_none());
    Ok(())
}
