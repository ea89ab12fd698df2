//! Files of the tests.

use std::env::temp_dir;
use std::test::Fail;
use std::{fs, process};

/// The path of a file of this process, for the test of that name; there is no such file.
pub fn fresh_path(rt: &HostRuntime, name: &str) -> Result<String, Fail> {
    let folder = temp_dir(rt)?;
    let process = process::id(rt.process());
    let path = format!(in rt.alloc(); "{}/journal-{process}-{name}", folder.as_str())?;
    if fs::exists(rt, path.as_str())? {
        fs::remove_file(rt, path.as_str())?;
    }
    Ok(path)
}
