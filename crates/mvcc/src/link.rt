use crate::kept_bytes::KeptBytes;

/// The state of a row after a commit that wrote it: the commit's number, and the row's bytes, or
/// `None` if the commit deleted the row.
#[derive(Drop)]
pub struct Link {
    pub version: u64,
    pub bytes: KeptBytes,
}
