// The right to open a ledger on a log.

// A log that has no ledger yet. One is made for each log that begins, and opening a ledger uses it up: it can't be copied or let go.
pub struct NewLog {
    unused: (),
}

impl NewLog {
    // Whoever makes one says that the log has none yet.
    pub fn begin() -> NewLog {
        NewLog { unused: () }
    }

    pub(crate) fn spend(self) {
        let NewLog { unused: () } = self;
    }
}
