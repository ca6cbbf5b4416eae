//! Two workers at once.

use crate::setting::{NAMES, TWO_OF_THREE, run_past, worked};
use io_edge::{Gate, MemSink};
use std::sync::atomic::{AtomicU64, Ordering};
use std::test::Fail;
use text_names::Limits;

/// How often the first test looks for a second, at most.
const MOST_LOOKS: u32 = 200_000_000;

/// A gate that holds the first test until a second has begun.
#[derive(Drop)]
struct Meeting {
    /// How many tests have begun.
    begun: AtomicU64,
    /// How many have met another: 0, or 1.
    met: AtomicU64,
}

impl Gate for Meeting {
    fn before_test(&self, _worker: u32, _rank: u32) {
        if self.begun.fetch_add(1, Ordering::SeqCst) > 0 {
            return;
        }
        for _ in 0..MOST_LOOKS {
            if self.begun.load(Ordering::SeqCst) > 1 {
                self.met.store(1, Ordering::SeqCst);
                return;
            }
        }
    }
}

#[test]
fn two_tests_at_once(rt: HostRuntime) -> Result<(), Fail> {
    let alloc = rt.alloc();
    let meeting = Meeting {
        begun: AtomicU64::new(0),
        met: AtomicU64::new(0),
    };
    let mut words = Vec::from_slice(alloc, &["--workers", "2"])?;
    words.extend_from_slice(&NAMES)?;
    let mut folder = worked(alloc)?;
    let mut sink = MemSink::new(alloc);
    let limits = Limits::standard();
    let (words, folder, sink) = (words.as_slice(), &mut folder, &mut sink);
    let ran = run_past(&rt, alloc, words, &limits, folder, sink, &meeting)?;
    assert!(rt; ran.number == 0);
    assert!(rt; ran.line.as_slice() == TWO_OF_THREE.as_bytes());
    assert!(rt; meeting.met.load(Ordering::SeqCst) == 1);
    Ok(())
}
