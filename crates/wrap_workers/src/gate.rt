//! What a job and a reader pass by, so that a test can hold them.

/// A place that whoever does a job, or looks at versions, passes.
pub trait Gate {
    /// Called by whoever does the job of this number, after its wraps are made and before they are handed on.
    fn pass(&self, job: u64);

    /// Called by the reader of this number in its loop, whenever it keeps a version.
    fn seen(&self, reader: u32, version: u64);
}

/// A gate that holds nobody.
#[derive(Clone, Copy, Debug)]
pub struct FreeGate;

impl Gate for FreeGate {
    fn pass(&self, _job: u64) {}

    fn seen(&self, _reader: u32, _version: u64) {}
}
