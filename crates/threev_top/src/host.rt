// What the program is given of the machine.
use std::alloc::Global;
use std::sync::Wait;
use std::thread::Threads;
use tv_base::Gate;

/// What a call of the program is given: threads, memory, and a gate for runs on threads.
#[derive(Drop)]
pub struct Host<'a, R: Threads + Wait + Sync, G: Gate + Sync> {
    /// The runtime that has the threads, and waits.
    pub rt: &'a R,
    /// Where all memory is asked for.
    pub alloc: Global,
    /// What is called before each step of a run on threads, under the lock of its actor.
    pub gate: &'a G,
}
