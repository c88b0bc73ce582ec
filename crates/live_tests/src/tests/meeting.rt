//! A gate at which a check and two publications meet.
use crossbeam_utils::atomic::AtomicCell;
use feed_io::Gate;

/// How many looks are taken at what another thread does before it is too late.
const TURNS: u32 = 50_000_000;

/// The first check of worker 0 waits for publication 1, and publication 2 waits for that check.
#[derive(Drop)]
pub struct Meeting {
    published: AtomicCell<u64>,
    checked: AtomicCell<u64>,
    late: AtomicCell<u64>,
}

impl Meeting {
    /// Nothing was published yet, and nothing checked.
    pub fn new() -> Meeting {
        Meeting {
            published: AtomicCell::new(0),
            checked: AtomicCell::new(0),
            late: AtomicCell::new(0),
        }
    }

    /// Whether a wait took too long.
    pub fn is_late(&self) -> bool {
        self.late.load() != 0
    }

    fn wait_for(&self, cell: &AtomicCell<u64>) {
        for _ in 0..TURNS {
            if cell.load() != 0 {
                return;
            }
        }
        self.late.store(1);
    }
}

impl Gate for Meeting {
    fn before_check(&self, worker: u32, place: u64) {
        if worker == 0 && place == 1 {
            self.wait_for(&self.published);
        }
    }

    fn after_check(&self, worker: u32, place: u64) {
        if worker == 0 && place == 1 {
            self.checked.store(1);
        }
    }

    fn before_publish(&self, number: u64) {
        if number == 2 {
            self.wait_for(&self.checked);
        }
    }

    fn after_publish(&self, number: u64) {
        if number == 1 {
            self.published.store(1);
        }
    }
}
