//! For tests with threads: what one thread tells another, and how long the other waits for it.
use std::sync::atomic::{AtomicBool, AtomicU64, Ordering};
use std::thread;
use std::time::{Clock, CpuClock, Duration};

/// The most turns of a loop that waits for another thread.
pub(crate) const MOST_TURNS: u32 = 10_000_000;

/// A new flag between threads, which isn't set.
pub(crate) fn unset() -> AtomicBool {
    AtomicBool::new(false)
}

/// A new count between threads, at 0.
pub(crate) fn none() -> AtomicU64 {
    AtomicU64::new(0)
}

/// Sets a flag, so that other threads see it.
pub(crate) fn set(flag: &AtomicBool) {
    flag.store(true, Ordering::SeqCst);
}

/// Whether a flag between threads is set now.
pub(crate) fn is_set(flag: &AtomicBool) -> bool {
    flag.load(Ordering::SeqCst)
}

/// Counts one more, and tells how many there were before.
pub(crate) fn add(count: &AtomicU64) -> u64 {
    count.fetch_add(1, Ordering::SeqCst)
}

/// How many a count between threads has now.
pub(crate) fn value(count: &AtomicU64) -> u64 {
    count.load(Ordering::SeqCst)
}

/// Puts this number into a count between threads.
pub(crate) fn keep(count: &AtomicU64, number: u64) {
    count.store(number, Ordering::SeqCst);
}

/// Waits within a limit until a flag is set, and tells whether it is.
pub(crate) fn becomes_set(flag: &AtomicBool) -> bool {
    for _ in 0..MOST_TURNS {
        if is_set(flag) {
            return true;
        }
        thread::yield_now();
    }
    false
}

/// Waits within a limit until a count comes to so many, and tells whether it does.
pub(crate) fn reaches(count: &AtomicU64, many: u64) -> bool {
    for _ in 0..MOST_TURNS {
        if value(count) >= many {
            return true;
        }
        thread::yield_now();
    }
    false
}

/// Whether a count comes to so many within ten seconds.
pub(crate) fn comes<C: Clock>(clock: &C, count: &AtomicU64, many: u64) -> bool {
    for _ in 0..10_000u32 {
        if value(count) >= many {
            return true;
        }
        pass(clock, 1);
    }
    false
}

/// Lets so many milliseconds pass.
pub(crate) fn pass<C: Clock>(clock: &C, millis: u64) {
    thread::sleep(clock, Duration::from_millis(millis));
}

/// What all threads but this one have used of processors, or a little more: this one's time is read first.
pub(crate) fn used_by_others<C: CpuClock>(clock: &C) -> Duration {
    let own = clock.thread_cpu_time().unwrap_or(Duration::ZERO);
    let all = clock.process_cpu_time().unwrap_or(Duration::MAX);
    all.saturating_sub(own)
}

/// Whether all threads but this one have now used more processor time than before. This thread's own time is read last.
fn have_others_worked<C: CpuClock>(clock: &C, before: Duration) -> bool {
    let all = clock.process_cpu_time().unwrap_or(Duration::ZERO);
    let own = clock.thread_cpu_time().unwrap_or(Duration::MAX);
    all.saturating_sub(own) > before
}

/// Whether another thread has worked within ten seconds, beyond what others had used before.
pub(crate) fn others_work<C: Clock + CpuClock>(clock: &C, before: Duration) -> bool {
    for _ in 0..10_000u32 {
        if have_others_worked(clock, before) {
            return true;
        }
        pass(clock, 1);
    }
    false
}

/// Whether less than a twentieth of a second's processor time is used in a second.
pub(crate) fn is_silent<C: Clock + CpuClock>(clock: &C) -> bool {
    let before = clock.process_cpu_time().ok();
    pass(clock, 1_000);
    match (before, clock.process_cpu_time().ok()) {
        (Some(before), Some(after)) => after.saturating_sub(before) < Duration::from_millis(50),
        _ => false,
    }
}
