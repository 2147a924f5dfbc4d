// What was done so far.
use sequences::numbers::plus;

#[derive(Clone, Copy, Default)]
pub struct Report {
    // Graph calls.
    pub calls: u64,
    // Paths from the first node to the last.
    pub paths: u64,
    // The most accesses of such a path since the last call.
    pub longest: u64,
    // Choice sequences walked over them.
    pub sequences: u64,
    // Comparisons, and how many of them failed.
    pub comparisons: u64,
    pub failed: u64,
}

pub fn nothing_yet() -> Report {
    Report::default()
}

impl Report {
    pub fn called(self) -> Report {
        Report {
            calls: plus(self.calls, 1),
            longest: 0,
            ..self
        }
    }

    // A path of `accesses` accesses and `sequences` choice sequences was walked.
    pub(crate) fn walked(self, accesses: u64, sequences: u64) -> Report {
        Report {
            paths: plus(self.paths, 1),
            longest: self.longest.max(accesses),
            sequences: plus(self.sequences, sequences),
            ..self
        }
    }

    // A comparison, which held or failed.
    pub fn compared(self, held: bool) -> Report {
        Report {
            comparisons: plus(self.comparisons, 1),
            failed: plus(self.failed, u64::from(!held)),
            ..self
        }
    }
}

// One line: what was counted, and how many.
fn say(what: &[u8], n: u64) {
    io::write_all(1, what);
    io::print_decimal(1, n);
    io::write_all(1, b"\n");
}

// What was done, and how much of it failed, on standard output.
pub fn say_all(r: Report) {
    say(b"runs ", r.calls);
    say(b"paths ", r.paths);
    say(b"choice sequences ", r.sequences);
    say(b"comparisons ", r.comparisons);
    say(b"failed ", r.failed);
}
