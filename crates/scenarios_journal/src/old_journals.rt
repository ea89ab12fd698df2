//! What the bytes of a journal of version 1 keep, without the mark and with it.

use crate::journal_bytes::formed;
use journal::Form;
use scenarios_journal_common::journal_cases::{MARK, bytes_of};
use scenarios_journal_common::old_journal_cases::{Formed, OLD, OLD_CASES, OldCase};
use std::alloc::Global;
use std::test::Fail;

/// Whether that is recovered of a case, with its form.
fn is_formed(alloc: Global, case: &OldCase) -> Result<bool, Fail> {
    let (len, changes, behind, recovered) = case;
    let bytes = bytes_of(alloc, &(*len, *changes, *behind))?;
    Ok(formed(alloc, &bytes)? == *recovered)
}

/// The index of the first case of version 1 of which something else is recovered.
fn other_old_case(alloc: Global) -> Result<Option<usize>, Fail> {
    for (index, case) in OLD_CASES.iter().enumerate() {
        if !is_formed(alloc, case)? {
            return Ok(Some(index));
        }
    }
    Ok(None)
}

#[test]
fn old_bytes_keep_what_is_whole_and_of_their_version(rt: HostRuntime) -> Result<(), Fail> {
    assert_eq!(rt; other_old_case(rt.alloc())?, None);
    Ok(())
}

/// What is to be recovered of so many bytes of a journal of version 1 with the mark.
fn expected_of_old(len: usize) -> Formed {
    if len < 9 {
        Ok((0, 0, Form::New))
    } else if len < 52 {
        Ok((0, 9, Form::Old))
    } else if len < 56 {
        Ok((1, 52, Form::Old))
    } else {
        Ok((1, 56, Form::Marked(1)))
    }
}

/// The first number of bytes of such a journal of which something else is recovered.
fn other_old_beginning(alloc: Global) -> Result<Option<usize>, Fail> {
    for len in 0..57 {
        if formed_of_old(alloc, len)? != expected_of_old(len) {
            return Ok(Some(len));
        }
    }
    Ok(None)
}

/// What is recovered of so many bytes of a journal of version 1 with the mark.
fn formed_of_old(alloc: Global, len: usize) -> Result<Formed, Fail> {
    let mut bytes = bytes_of(alloc, &(52, &OLD, &MARK))?;
    bytes.truncate(len);
    formed(alloc, &bytes)
}

#[test]
fn an_old_journal_is_torn_at_each_byte(rt: HostRuntime) -> Result<(), Fail> {
    assert_eq!(rt; other_old_beginning(rt.alloc())?, None);
    Ok(())
}
