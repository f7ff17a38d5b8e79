//! A gate that counts how often it is passed.
use std::sync::atomic::AtomicU64;
use std::sync::atomic::Ordering::SeqCst;
use wrap_workers::Gate;

/// It holds nobody.
#[derive(Drop)]
pub struct Counted {
    passed: AtomicU64,
}

impl Counted {
    pub fn new() -> Counted {
        Counted {
            passed: AtomicU64::new(0),
        }
    }

    /// How often it was passed.
    pub fn passed(&self) -> u64 {
        self.passed.load(SeqCst)
    }
}

impl Gate for Counted {
    fn pass(&self, _job: u64) {
        self.passed.fetch_add(1, SeqCst);
    }

    fn seen(&self, _reader: u32, _version: u64) {}
}
