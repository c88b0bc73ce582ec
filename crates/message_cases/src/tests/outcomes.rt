//! How many messages were compared, and with which answers, so that no answer goes untried.

/// One more than the greatest subcode.
const SUBCODES: usize = 12;

/// How many messages were read, and how many had each subcode.
#[derive(Debug, Drop)]
pub struct Outcomes {
    pub read: u64,
    pub faults: [u64; SUBCODES],
}

impl Outcomes {
    pub fn new() -> Outcomes {
        Outcomes {
            read: 0,
            faults: [0; SUBCODES],
        }
    }

    /// One more message, with the subcode of its fault if it has one.
    pub fn count(&mut self, fault: Option<u8>) {
        let Some(fault) = fault else {
            self.read = self.read.wrapping_add(1);
            return;
        };
        if let Some(count) = self.faults.get_mut(fault as usize) {
            *count = count.wrapping_add(1);
        }
    }

    /// How many messages there were.
    pub fn all(&self) -> u64 {
        let mut all = self.read;
        for count in self.faults {
            all = all.wrapping_add(count);
        }
        all
    }

    /// Whether messages were read, and each of these subcodes came, ten times at least.
    pub fn have_all(&self, subcodes: &[u8]) -> bool {
        for subcode in subcodes {
            let count = self.faults.get(*subcode as usize).copied();
            if count.unwrap_or(0) < 10 {
                return false;
            }
        }
        self.read >= 10
    }
}
