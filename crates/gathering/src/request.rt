//! A client's request.

ghost use Rattle.std.specs.Prelude.{◌≡◌};

use requests::Query;

/// A client's request for queries.
#[derive(Drop)]
pub struct Request {
    /// The place at which its client waits.
    pub(crate) place: usize,
    pub queries: Vec<Query>,
}

impl Request {
    /// Its queries. Takes no memory.
    pub fn into_queries(self) -> Vec<Query>
        ensures { result ≡ self.queries }
    {
        self.queries
    }
}

/// A request that is under way: where its client waits, and how many queries it has.
#[derive(Clone, Copy)]
pub(crate) struct Part {
    pub(crate) place: usize,
    pub(crate) count: usize,
}
