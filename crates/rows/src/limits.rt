//! The limits of the engine, each defined once.

ghost use Rattle.std.specs.Prelude.{◌≡◌};
ghost use Rattle.rows.specs.Limits.{tables_max, columns_max, octets_max, row_width_max, commit_entries_max};
ghost use Rattle.rows.specs.Limits.{workers_max, replicas_max, datagram_max, waiting_queries_max, frame_window};

/// Tables in a schema, at most.
pub const TABLES_MAX: usize = 16;

/// Columns in a table, at most.
pub const COLUMNS_MAX: usize = 16;

/// Bytes of one column's value, at most.
pub const OCTETS_MAX: usize = 64;

/// Bytes in a row, at most.
pub const ROW_WIDTH_MAX: usize = 512;

/// Entries in a commit, at most.
pub const COMMIT_ENTRIES_MAX: usize = 4096;

/// Workers of a primary, at most; worker numbers are below this.
pub const WORKERS_MAX: u8 = 16;

/// Replicas, at most; replica numbers are below this.
pub const REPLICAS_MAX: u8 = 16;

/// Bytes of a datagram, at most.
pub const DATAGRAM_MAX: usize = 1200;

/// Queries that may wait at a replica for its next batch, at most.
pub const WAITING_QUERIES_MAX: usize = 64;

/// Frames that a replica keeps for one worker, counted from the first missing one.
pub const FRAME_WINDOW: u64 = 4096;

/// The limits are the numbers that the definitions name. It does nothing: its contract states this,
/// so that a limit that is changed only here is refused.
pub fn are_as_defined()
    ensures tables { TABLES_MAX ≡ tables_max }
    ensures columns { COLUMNS_MAX ≡ columns_max }
    ensures octets { OCTETS_MAX ≡ octets_max }
    ensures row_width { ROW_WIDTH_MAX ≡ row_width_max }
    ensures commit_entries { COMMIT_ENTRIES_MAX ≡ commit_entries_max }
    ensures workers { WORKERS_MAX ≡ workers_max }
    ensures replicas { REPLICAS_MAX ≡ replicas_max }
    ensures datagram { DATAGRAM_MAX ≡ datagram_max }
    ensures waiting_queries { WAITING_QUERIES_MAX ≡ waiting_queries_max }
    ensures window { FRAME_WINDOW ≡ frame_window }
{}
