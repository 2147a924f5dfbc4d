// How many comparisons there were, and how many failed.
ghost use Rattle.std.specs.Prelude.{◌≡◌};
ghost use Rattle.case_text.specs.Reports.{compared_in};

use crate::plus;
use crate::shown::say;

#[derive(Clone, Copy)]
pub struct Report {
    pub comparisons: u64,
    pub failed: u64,
}

impl Report {
    // Before the first comparison.
    pub fn empty() -> Report
        ensures { result ≡ record { comparisons = 0; failed = 0 } }
    {
        Report {
            comparisons: 0,
            failed: 0,
        }
    }

    // One comparison more, which held or failed.
    pub fn compared(self, held: bool) -> Report
        ensures { result ≡ compared_in self held }
    {
        let comparisons = plus(self.comparisons, 1);
        if held {
            return Report {
                comparisons,
                failed: self.failed,
            };
        }
        Report {
            comparisons,
            failed: plus(self.failed, 1),
        }
    }

    // The last two lines that a program writes.
    pub fn tell(self) {
        say(b"comparisons ", self.comparisons);
        say(b"failed ", self.failed);
    }
}
