/// Which entries of which commit a frame has.
#[derive(Clone, Copy)]
pub struct Span {
    /// The number of the commit, from 1.
    pub commit: u64,
    /// How many of the commit's entries precede the frame's.
    pub start: u32,
    /// How many of the commit's entries precede those after the frame.
    pub end: u32,
}
