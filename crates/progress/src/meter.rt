//! The meter of what passed.

use std::alloc::{AllocError, Global};
use std::io::Write;
use std::sync::atomic::{AtomicU64, Ordering};
use std::time::{Clock, Instant};

// Milliseconds between two lines, at least.
const PAUSE: u64 = 250;

/// The line that tells how much passed so far.
///
/// # Errors
///
/// `AllocError` where memory is refused.
pub fn progress_line(alloc: Global, rows: u64, bytes: u64) -> Result<String, AllocError> {
    format!(in alloc; "progress: {rows} rows, {bytes} bytes\n")
}

/// How many rows and bytes passed over the connections of a call, in any of its threads. It prints
/// them in a line, at most four times a second, where something passes and the clock gives the
/// time. A line that can't be printed is left out.
#[derive(Drop)]
pub struct Meter<'a, K, E> {
    clock: &'a K,
    alloc: Global,
    faults: E,
    begun: Option<Instant>,
    rows: AtomicU64,
    bytes: AtomicU64,
    // The milliseconds since it was made at which the next line is due.
    due: AtomicU64,
}

impl<'a, K: Clock, E: Write + Copy> Meter<'a, K, E> {
    /// Nothing passed yet. The first line is due after a quarter of a second.
    pub fn new(clock: &'a K, alloc: Global, faults: E) -> Meter<'a, K, E> {
        Meter {
            clock,
            alloc,
            faults,
            begun: Instant::now(clock).ok(),
            rows: AtomicU64::new(0),
            bytes: AtomicU64::new(0),
            due: AtomicU64::new(PAUSE),
        }
    }

    /// So many rows and bytes more passed.
    pub fn passed(&self, rows: u64, bytes: usize) {
        self.rows.fetch_add(rows, Ordering::SeqCst);
        self.bytes.fetch_add(bytes as u64, Ordering::SeqCst);
        if self.is_due() {
            self.tell();
        }
    }

    // Whether a line is due now. One thread alone is told so, and the next line is due a pause
    // later.
    fn is_due(&self) -> bool {
        let Some(now) = self.milliseconds() else {
            return false;
        };
        let due = self.due.load(Ordering::SeqCst);
        let next = now.saturating_add(PAUSE);
        now >= due
            && self
                .due
                .compare_exchange(due, next, Ordering::SeqCst, Ordering::SeqCst)
                .is_ok()
    }

    // The milliseconds since it was made, where the clock gives the time.
    fn milliseconds(&self) -> Option<u64> {
        let begun = self.begun?;
        let elapsed = begun.elapsed(self.clock).ok()?;
        u64::try_from(elapsed.as_millis()).ok()
    }

    // Prints the line.
    fn tell(&self) {
        let rows = self.rows.load(Ordering::SeqCst);
        let bytes = self.bytes.load(Ordering::SeqCst);
        if let Ok(line) = progress_line(self.alloc, rows, bytes) {
            let mut faults = self.faults;
            let _ = faults.write(line.as_bytes());
        }
    }
}
