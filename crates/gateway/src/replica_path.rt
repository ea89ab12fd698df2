//! The paths of a replica.

/// What a path of a replica names.
#[derive(Clone, Copy)]
pub(crate) enum ReplicaPath {
    Batches,
    Status,
    Metrics,
    Tables,
    Page,
    None,
}

/// What a path names at a replica.
pub(crate) fn replica_path_of(path: &str) -> ReplicaPath {
    match path {
        "/batches" => ReplicaPath::Batches,
        "/status" => ReplicaPath::Status,
        "/metrics" => ReplicaPath::Metrics,
        "/tables" => ReplicaPath::Tables,
        "/" => ReplicaPath::Page,
        _ => ReplicaPath::None,
    }
}
