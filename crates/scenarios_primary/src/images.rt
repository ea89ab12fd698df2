//! Images: the entries that rebuild the tables of each version.

use crate::accounts::{Cell, absorb, is_held, value_of, versions_of};
use mvcc::{ImagePlace, Versions};
use rows::{Entry, EntryList, Kind};
use scenarios_common::wanted::{SIX, Table, Wanted, all_made};
use std::alloc::Global;
use std::test::Fail;

/// Accounts of a number and two bytes, and an audit of a number.
static TABLES: [Table; 2] = [
    ("accounts", &[Kind::Int, Kind::Octets(2)]),
    ("audit", &[Kind::Int]),
];

/// What a commit does.
enum Step {
    /// It changes these rows.
    Rows(&'static [Wanted<'static>]),
    /// It adds a column to a table, with this in each row.
    Column(u8, Cell),
}

/// Rows are inserted, in falling identifier; the accounts get a number, 7; account 7 is set to 6;
/// account 8 is deleted, and the last that there can be is inserted; the audit gets three bytes; and
/// all rows are deleted.
static HISTORY: [Step; 6] = [
    Step::Rows(&[
        Wanted::Insert(1, 3, b"\0\0\0\0\0\0\0\x01"),
        Wanted::Insert(0, 8, b"\0\0\0\0\0\0\0\x09ab"),
        Wanted::Insert(0, 7, b"\0\0\0\0\0\0\0\x05cd"),
    ]),
    Step::Column(0, Cell::Number(7)),
    Step::Rows(&[Wanted::Patch(0, 7, 0, &SIX)]),
    Step::Rows(&[
        Wanted::Delete(0, 8),
        Wanted::Insert(
            0,
            u64::MAX,
            b"\0\0\0\0\0\0\0\0ef\xff\xff\xff\xff\xff\xff\xff\xff",
        ),
    ]),
    Step::Column(1, Cell::Octets(b"xyz")),
    Step::Rows(&[
        Wanted::Delete(0, 7),
        Wanted::Delete(0, u64::MAX),
        Wanted::Delete(1, 3),
    ]),
];

/// An entry of an image.
enum Shown {
    /// A column is added to a table, with this in each row.
    Column(u8, Cell),
    /// A row of a table is inserted, of these bytes.
    Row(u8, u64, &'static [u8]),
}

/// A version, and its image.
type Picture = (u64, &'static [Shown]);

/// The image of each version of the history; a version that is not there yet is the newest.
static PICTURES: [Picture; 8] = [
    (0, &[]),
    (
        1,
        &[
            Shown::Row(0, 7, b"\0\0\0\0\0\0\0\x05cd"),
            Shown::Row(0, 8, b"\0\0\0\0\0\0\0\x09ab"),
            Shown::Row(1, 3, b"\0\0\0\0\0\0\0\x01"),
        ],
    ),
    (
        2,
        &[
            Shown::Column(0, Cell::Number(0)),
            Shown::Row(0, 7, b"\0\0\0\0\0\0\0\x05cd\0\0\0\0\0\0\0\x07"),
            Shown::Row(0, 8, b"\0\0\0\0\0\0\0\x09ab\0\0\0\0\0\0\0\x07"),
            Shown::Row(1, 3, b"\0\0\0\0\0\0\0\x01"),
        ],
    ),
    (
        3,
        &[
            Shown::Column(0, Cell::Number(0)),
            Shown::Row(0, 7, b"\0\0\0\0\0\0\0\x06cd\0\0\0\0\0\0\0\x07"),
            Shown::Row(0, 8, b"\0\0\0\0\0\0\0\x09ab\0\0\0\0\0\0\0\x07"),
            Shown::Row(1, 3, b"\0\0\0\0\0\0\0\x01"),
        ],
    ),
    (
        4,
        &[
            Shown::Column(0, Cell::Number(0)),
            Shown::Row(0, 7, b"\0\0\0\0\0\0\0\x06cd\0\0\0\0\0\0\0\x07"),
            Shown::Row(
                0,
                u64::MAX,
                b"\0\0\0\0\0\0\0\0ef\xff\xff\xff\xff\xff\xff\xff\xff",
            ),
            Shown::Row(1, 3, b"\0\0\0\0\0\0\0\x01"),
        ],
    ),
    (
        5,
        &[
            Shown::Column(0, Cell::Number(0)),
            Shown::Row(0, 7, b"\0\0\0\0\0\0\0\x06cd\0\0\0\0\0\0\0\x07"),
            Shown::Row(
                0,
                u64::MAX,
                b"\0\0\0\0\0\0\0\0ef\xff\xff\xff\xff\xff\xff\xff\xff",
            ),
            Shown::Column(1, Cell::Octets(b"\0\0\0")),
            Shown::Row(1, 3, b"\0\0\0\0\0\0\0\x01xyz"),
        ],
    ),
    (6, &EMPTIED),
    (u64::MAX, &EMPTIED),
];

/// What is left where all rows are deleted.
const EMPTIED: [Shown; 2] = [
    Shown::Column(0, Cell::Number(0)),
    Shown::Column(1, Cell::Octets(b"\0\0\0")),
];

/// The entries of a commit.
fn entries_of(alloc: Global, step: &Step) -> Result<EntryList, Fail> {
    match step {
        Step::Rows(wanted) => Ok(all_made(alloc, wanted)?),
        Step::Column(table, cell) => {
            let default = value_of(cell)?;
            let mut entries = EntryList::new(alloc);
            entries.push(Entry::AddColumn {
                table: *table,
                default,
            })?;
            Ok(entries)
        }
    }
}

/// Absorbs the commits of the history.
fn absorb_history(alloc: Global, versions: &mut Versions) -> Result<(), Fail> {
    for step in &HISTORY {
        let entries = entries_of(alloc, step)?;
        absorb(versions, entries.as_slice())?;
    }
    Ok(())
}

/// Whether this is the entry that is shown.
fn is_shown(entry: &Entry, shown: &Shown) -> bool {
    match (entry, shown) {
        (Entry::AddColumn { table, default }, Shown::Column(at, cell)) => {
            *table == *at && is_held(&Some(*default), cell)
        }
        (Entry::Insert { table, row, bytes }, Shown::Row(at, id, content)) => {
            *table == *at && row.0 == *id && bytes.as_slice() == *content
        }
        _ => false,
    }
}

/// Whether these are the entries that are shown.
fn are_shown(image: &[Entry], shown: &[Shown]) -> bool {
    let mut same = image.len() == shown.len();
    for (entry, shown) in image.iter().zip(shown) {
        same = same && is_shown(entry, shown);
    }
    same
}

/// Whether an image, as one commit on tables as they are opened, has itself as the image.
fn is_rebuilt(alloc: Global, image: &[Entry]) -> Result<bool, Fail> {
    let mut versions = versions_of(alloc, &TABLES, &[])?;
    is_image_of(&mut versions, image)
}

/// Whether an image, as the first commit, has itself as the image.
fn is_image_of(versions: &mut Versions, image: &[Entry]) -> Result<bool, Fail> {
    absorb(versions, image)?;
    let again = versions.image(1)?;
    Ok(again.as_slice() == image)
}

/// As many parts as an image of the history has at most, one row each.
const PARTS_MAX: usize = 64;

/// The image of a version, made in parts of so many rows; a part of no row has one.
fn image_in_parts(
    alloc: Global,
    versions: &Versions,
    version: u64,
    most: usize,
) -> Result<Vec<Entry>, Fail> {
    let mut image = Vec::new(alloc);
    push_image(versions, version, most, &mut image)?;
    Ok(image)
}

/// Makes the same at the end of a list.
fn push_image(
    versions: &Versions,
    version: u64,
    most: usize,
    image: &mut Vec<Entry>,
) -> Result<(), Fail> {
    let mut place = Some(ImagePlace::first());
    for _ in 0..PARTS_MAX {
        if let Some(begin) = place {
            place = versions.push_image_part(version, begin, most, image)?;
        }
    }
    if place.is_some() {
        return Err("an image in too many parts".into());
    }
    Ok(())
}

/// Whether the image of a version is the one that is shown, made at once and in parts of 0 to 2 rows.
fn is_pictured(
    alloc: Global,
    versions: &Versions,
    version: u64,
    shown: &[Shown],
) -> Result<bool, Fail> {
    let image = versions.image(version)?;
    Ok(
        is_joined(alloc, versions, version, image.as_slice())?
            && are_shown(image.as_slice(), shown)
            && is_rebuilt(alloc, image.as_slice())?,
    )
}

/// Whether the image of a version is this one, made in parts of 0 to 2 rows.
fn is_joined(
    alloc: Global,
    versions: &Versions,
    version: u64,
    image: &[Entry],
) -> Result<bool, Fail> {
    for most in 0..3 {
        let joined = image_in_parts(alloc, versions, version, most)?;
        if joined.as_slice() != image {
            return Ok(false);
        }
    }
    Ok(true)
}

/// The versions with the commits of the history.
fn versions_behind(alloc: Global) -> Result<Versions, Fail> {
    let mut versions = versions_of(alloc, &TABLES, &[])?;
    absorb_history(alloc, &mut versions)?;
    Ok(versions)
}

/// The first version whose image is another than the one that is shown.
fn other_picture(alloc: Global) -> Result<Option<u64>, Fail> {
    let versions = versions_behind(alloc)?;
    other_picture_of(alloc, &versions)
}

/// The same of these versions.
fn other_picture_of(alloc: Global, versions: &Versions) -> Result<Option<u64>, Fail> {
    for (version, shown) in &PICTURES {
        if !is_pictured(alloc, versions, *version, shown)? {
            return Ok(Some(*version));
        }
    }
    Ok(None)
}

#[test]
fn images_are_those_of_their_versions(rt: HostRuntime) -> Result<(), Fail> {
    assert_eq!(rt; other_picture(rt.alloc())?, None);
    Ok(())
}

/// The image of a version, which is asked for once more where it was refused for memory.
fn image_at_last(versions: &Versions, version: u64) -> Result<Vec<Entry>, Fail> {
    match versions.image(version) {
        Ok(image) => Ok(image),
        Err(_) => Ok(versions.image(version)?),
    }
}

/// Whether the image of a version with rows and added columns is the one that is shown, at last.
fn is_made_at_last(alloc: Global) -> Result<bool, Fail> {
    let versions = versions_behind(alloc)?;
    is_shown_at_last(&versions, &PICTURES[5])
}

/// Whether the image of a version is the one that is shown, at last.
fn is_shown_at_last(versions: &Versions, picture: &Picture) -> Result<bool, Fail> {
    let (version, shown) = picture;
    let image = image_at_last(versions, *version)?;
    Ok(are_shown(image.as_slice(), shown))
}

/// Whichever request for memory is refused: an image that was refused for memory is made when it is
/// asked for again.
#[test]
fn an_image_without_memory_is_made_again(rt: HostRuntime) -> Result<(), Fail> {
    assert!(rt; is_made_at_last(rt.alloc())?);
    Ok(())
}

/// Where a part of the image of version 5 begins, how many entries it has that goes on to the end of its
/// table, and whether another follows.
static PARTS: [(u8, u64, usize, bool); 7] = [
    (0, 0, 3, true),
    (0, 1, 2, true),
    (0, u64::MAX, 1, true),
    (1, 4, 0, true),
    (15, 0, 0, false),
    (16, 0, 0, false),
    (u8::MAX, u64::MAX, 0, false),
];

/// The first part that has other entries, by its place among those above.
fn other_part(alloc: Global) -> Result<Option<usize>, Fail> {
    let versions = versions_behind(alloc)?;
    other_part_of(alloc, &versions)
}

/// The same of these versions.
fn other_part_of(alloc: Global, versions: &Versions) -> Result<Option<usize>, Fail> {
    for (index, (table, row, count, goes_on)) in PARTS.iter().enumerate() {
        let begin = ImagePlace {
            table: *table,
            row: *row,
        };
        if part_at(alloc, versions, begin)? != (*count, *goes_on) {
            return Ok(Some(index));
        }
    }
    Ok(None)
}

/// How many entries the part of the image of version 5 has that begins at this place, and whether
/// another follows.
fn part_at(alloc: Global, versions: &Versions, begin: ImagePlace) -> Result<(usize, bool), Fail> {
    let mut image = Vec::new(alloc);
    let next = versions.push_image_part(5, begin, usize::MAX, &mut image)?;
    Ok((image.len(), next.is_some()))
}

/// From the last row of a table on it is that row alone; from behind the tables that there are, nothing.
#[test]
fn parts_begin_at_their_place(rt: HostRuntime) -> Result<(), Fail> {
    assert_eq!(rt; other_part(rt.alloc())?, None);
    Ok(())
}
