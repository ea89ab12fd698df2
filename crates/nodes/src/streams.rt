//! The standard streams of a node.

/// Where a node's jobs or batches come from, where its answers go, and where it says what it does.
#[derive(Drop)]
pub struct Streams<R, W, E> {
    pub reader: R,
    pub writer: W,
    pub errors: E,
}
