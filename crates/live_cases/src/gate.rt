use lk_listen::Gate;
use std::sync::atomic::{AtomicBool, Ordering};
use std::thread;

// How often a wait looks before it gives up.
const TURNS: u32 = 1_000_000;

/// A gate that holds the first query over the snapshot 0 until one over the snapshot 1 has ended.
#[derive(Drop)]
pub struct Holding {
    // A query over the snapshot 0 has begun.
    held: AtomicBool,
    // One over the snapshot 1 has begun, or ended.
    begun: AtomicBool,
    ended: AtomicBool,
    // A wait was given up.
    late: AtomicBool,
}

impl Holding {
    /// Nothing has begun.
    pub fn new() -> Holding {
        Holding {
            held: AtomicBool::new(false),
            begun: AtomicBool::new(false),
            ended: AtomicBool::new(false),
            late: AtomicBool::new(false),
        }
    }

    /// Waits until a query over the snapshot 0 is held.
    pub fn await_held(&self) {
        self.wait(&self.held);
    }

    /// Whether a wait was given up.
    pub fn is_late(&self) -> bool {
        self.late.load(Ordering::SeqCst)
    }

    // Lets other threads run until it has come.
    fn wait(&self, event: &AtomicBool) {
        for _ in 0..TURNS {
            if event.load(Ordering::SeqCst) {
                return;
            }
            thread::yield_now();
        }
        self.late.store(true, Ordering::SeqCst);
    }
}

impl Gate for Holding {
    fn begin(&self, number: u64) {
        if number == 0 {
            self.held.store(true, Ordering::SeqCst);
            self.wait(&self.ended);
        }
        if number == 1 {
            self.begun.store(true, Ordering::SeqCst);
        }
    }

    fn end(&self) {
        if self.begun.load(Ordering::SeqCst) {
            self.ended.store(true, Ordering::SeqCst);
        }
    }
}
