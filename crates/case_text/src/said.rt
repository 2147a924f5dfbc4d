// What a call answered, in numbers.
use rules::Refusal;

// A refusal's number and 0, or 0 and the value. Kept as two numbers: a line of the cases tells both, and each is a comparison of its own, which the programs count.
#[derive(Clone, Copy)]
pub struct Said {
    pub refusal: u64,
    pub value: u64,
}

pub fn value_said(value: u64) -> Said {
    Said { refusal: 0, value }
}

pub fn refusal_said(why: Refusal) -> Said {
    Said {
        refusal: why.number(),
        value: 0,
    }
}

// Of a question's answer: a count of misses, cycles, accesses or units.
pub fn count_said(answer: Result<u64, Refusal>) -> Said {
    match answer {
        Ok(count) => value_said(count),
        Err(why) => refusal_said(why),
    }
}
