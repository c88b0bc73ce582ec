//! Who is told of checks and of publications while threads run, so that a test may hold one back
//! until another one is done.

/// Who is called round each check and each publication. Threads share it, where its type lets them.
pub trait Gate {
    /// The worker checks the packet at this place next, from 1.
    fn before_check(&self, worker: u32, place: u64);

    /// The worker has checked the packet at this place.
    fn after_check(&self, worker: u32, place: u64);

    /// The batch of this number is published next.
    fn before_publish(&self, number: u64);

    /// The publication of this number was tried.
    fn after_publish(&self, number: u64);
}

/// A gate that does nothing.
#[derive(Clone, Copy)]
pub struct NoGate;

impl Gate for NoGate {
    fn before_check(&self, _worker: u32, _place: u64) {}

    fn after_check(&self, _worker: u32, _place: u64) {}

    fn before_publish(&self, _number: u64) {}

    fn after_publish(&self, _number: u64) {}
}
