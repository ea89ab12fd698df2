use rows::Schema;

/// What is fixed for a whole run: the tables, and the numbers of workers and replicas.
#[derive(Drop)]
pub struct Setup {
    pub schema: Schema,
    /// Workers of the primary; their numbers are below this.
    pub workers: u8,
    /// Replicas; their numbers are below this.
    pub replicas: u8,
}
