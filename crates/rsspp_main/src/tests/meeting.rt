// A gate at which two workers wait for each other.
use rss_base::Gate;
use std::sync::atomic::AtomicBool;
use std::sync::atomic::Ordering::SeqCst;
use std::thread;

// How often a worker looks for the other.
const LOOKS: u64 = 50_000_000;

/// Cores 0 and 1 wait for each other before their first packet, for a number of looks.
#[derive(Drop)]
pub struct Meeting {
    here: [AtomicBool; 2],
    saw: [AtomicBool; 2],
}

impl Meeting {
    pub fn new() -> Meeting {
        Meeting {
            here: [AtomicBool::new(false), AtomicBool::new(false)],
            saw: [AtomicBool::new(false), AtomicBool::new(false)],
        }
    }

    /// Whether each of the two saw the other.
    pub fn met(&self) -> bool {
        self.saw[0].load(SeqCst) && self.saw[1].load(SeqCst)
    }
}

impl Gate for Meeting {
    fn pass(&self, core: u8, worked: u64) {
        if worked != 0 || core > 1 {
            return;
        }
        let me = usize::from(core);
        self.here[me].store(true, SeqCst);
        for look in 0..LOOKS {
            if self.here[1 - me].load(SeqCst) {
                self.saw[me].store(true, SeqCst);
                return;
            }
            if look % 1024 == 0 {
                thread::yield_now();
            }
        }
    }
}
