//! What is notified of each commit.

/// It is notified, in the worker's own thread, before and after each commit, and may block the
/// worker there. A job with a refused step does not commit, and the gate is not notified of it. A
/// job that is done again after a conflict with a pending commit of its worker commits again, and
/// the gate is notified again. If no thread can be made, the workers run one after the other: a
/// gate that blocks one has to release it by itself eventually.
pub trait Gate {
    /// A worker is about to commit the job with that index.
    fn before(&self, worker: u8, job: usize);

    /// The commit of the job with that index was answered, whatever the answer. It is not durable
    /// yet.
    fn answered(&self, worker: u8, job: usize);
}

/// A gate that never blocks.
#[derive(Clone, Copy)]
pub struct OpenGate;

impl Gate for OpenGate {
    fn before(&self, _worker: u8, _job: usize) {}

    fn answered(&self, _worker: u8, _job: usize) {}
}
