//! What a script's text cannot show by what it prints: settings that are read, schema files, and outputs that are written by
//! themselves.

use rows::{ByteList, Kind};
use script::{Sent, write_text_of};
use std::alloc::Global;
use std::test::Fail;
use world::{Output, Reason, ScriptFault, read_settings};

/// Settings of 16 workers, of 15 replicas, and of 16 tables with 16 columns each, of which each second one is of bytes, another number
/// of them in each table.
fn many_tables(alloc: Global) -> Result<String, Fail> {
    let mut text = String::from_str(alloc, "workers 16\nreplicas 15\n")?;
    for number in 0..16u8 {
        let width = number + 1;
        let name = format!(in alloc; "table t{number}")?;
        let two = format!(in alloc; " int bytes{width}")?;
        text.push_str(name.as_str())?;
        for _ in 0..8 {
            text.push_str(two.as_str())?;
        }
        text.push_str("\n")?;
    }
    Ok(text)
}

/// Whether a table has such columns.
fn has_columns(kinds: &[Kind], width: u8) -> bool {
    let two = [Kind::Int, Kind::Octets(width)];
    kinds.len() == 16 && kinds.chunks(2).all(|pair| pair == two.as_slice())
}

#[test]
fn sixteen_tables_of_sixteen_columns_are_set(rt: HostRuntime) -> Result<(), Fail> {
    let text = many_tables(rt.alloc())?;
    let setup = read_settings(rt.alloc(), text.as_bytes())?;
    assert_eq!(rt;
        (setup.workers, setup.replicas, setup.schema.len()),
        (16, 15, 16)
    );
    for number in 0..16u8 {
        let name = format!(in rt.alloc(); "t{number}")?;
        assert_eq!(rt; setup.schema.name(number as usize), Some(name.as_str()));
        let kinds = setup.schema.kinds(number as usize);
        assert!(rt; matches!(kinds, Some(kinds) if has_columns(kinds, number + 1)));
    }
    Ok(())
}

/// Texts that are no schema file, with the line that is not, and why.
const NO_SCHEMAS: [(&str, u64, Reason); 6] = [
    ("", 1, Reason::BadSetting),
    ("workers 1\nreplicas 1\n", 3, Reason::BadSetting),
    (
        "workers 1\nreplicas 1\ntable acct int\nbegin\n",
        4,
        Reason::BadSetting,
    ),
    (
        "workers 1\nreplicas 1\ntable acct int\n\n# more\nflush",
        6,
        Reason::BadSetting,
    ),
    (
        "workers 1\nreplicas 1\ntable acct int\ntable acct int\n",
        4,
        Reason::BadSetting,
    ),
    (
        "workers 1\nreplicas 1\ntable acct int\n#\t\n",
        4,
        Reason::NotText,
    ),
];

#[test]
fn a_schema_file_has_settings_and_nothing_else(rt: HostRuntime) -> Result<(), Fail> {
    let text = "# accounts\nworkers 1\n\nreplicas 1\ntable acct int";
    let setup = read_settings(rt.alloc(), text.as_bytes())?;
    assert_eq!(rt; setup.schema.name(0), Some("acct"));
    for (text, line, reason) in &NO_SCHEMAS {
        let fault = ScriptFault::At {
            line: *line,
            reason: *reason,
        };
        assert_eq!(rt;
            read_settings(rt.alloc(), text.as_bytes()).err(),
            Some(fault)
        );
    }
    Ok(())
}

#[test]
fn a_report_of_more_than_4096_bytes_is_written_whole(rt: HostRuntime) -> Result<(), Fail> {
    let mut lines = Vec::new(rt.alloc());
    for number in 1000..2000u64 {
        let line = format!(in rt.alloc(); "{number} 1\n")?;
        lines.extend_from_slice(line.as_bytes())?;
    }
    let report = Output::Report(ByteList::from_vec(lines.clone()?));
    let mut text = Vec::new(rt.alloc());
    write_text_of(rt.alloc(), &mut text, &[report])?;
    assert_eq!(rt; text.len(), 7000);
    assert_eq!(rt; text.as_slice(), lines.as_slice());
    Ok(())
}

/// What replicas tell of themselves, one behind the other.
const TOLD: &str = "version 18446744073709551615\nversion 1 rows 1\nacct 7 5 -1\n\
    boot 18446744073709551615\nboot used\nforged\nno head\n\
    waiting piece 18446744073709551615\nsent 18446744073709551615 23\n";

#[test]
fn versions_tables_and_boots_are_written(rt: HostRuntime) -> Result<(), Fail> {
    let mut tables = Vec::new(rt.alloc());
    tables.extend_from_slice(b"version 1 rows 1\nacct 7 5 -1\n")?;
    let outputs = [
        Output::Version(u64::MAX),
        Output::Dump(ByteList::from_vec(tables)),
        Output::Boot(u64::MAX),
        Output::BootUsed,
        Output::Forged,
        Output::NoHead,
        Output::WaitingPiece {
            number: u64::MAX,
            pull: Sent {
                index: u64::MAX,
                len: 23,
            },
        },
    ];
    let mut text = Vec::new(rt.alloc());
    write_text_of(rt.alloc(), &mut text, &outputs)?;
    assert_eq!(rt; text.as_slice(), TOLD.as_bytes());
    Ok(())
}
