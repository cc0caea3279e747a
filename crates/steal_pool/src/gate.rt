//! Gates: points where workers can be made to wait.

use std::sync::Wait;

/// A point that each worker passes before each task. A gate can watch workers or make them wait.
/// A gate changes no result. The caller of `pass` numbers workers and tasks.
pub trait Gate {
    /// Called when a worker, numbered from 0, comes to the task at this place. May make the worker wait.
    fn pass<W: Wait>(&self, rt: &W, worker: u32, place: u32);
}

/// A gate that makes no worker wait.
#[derive(Clone, Copy, Debug, PartialEq, Eq)]
pub struct NoGate;

impl Gate for NoGate {
    fn pass<W: Wait>(&self, _rt: &W, _worker: u32, _place: u32) {}
}
