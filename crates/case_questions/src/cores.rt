// The cores of document 02, request 9/13, and the cycles of a path on them: written down here by themselves.
use case_text::{MOST, plus};

// The cycles of a hit, and of a miss.
#[derive(Clone, Copy)]
pub(crate) struct Core {
    pub hit: u64,
    pub miss: u64,
}

// The core of a number; 11 is the last.
pub(crate) fn core_of(number: usize) -> Core {
    match number {
        0 => Core { hit: 1, miss: 8 },
        1 => Core { hit: 1, miss: 10 },
        2 => Core { hit: 1, miss: 12 },
        3 => Core { hit: 1, miss: 20 },
        4 => Core { hit: 2, miss: 10 },
        5 => Core { hit: 2, miss: 16 },
        6 => Core { hit: 2, miss: 24 },
        7 => Core { hit: 2, miss: 40 },
        8 => Core { hit: 3, miss: 15 },
        9 => Core { hit: 3, miss: 30 },
        10 => Core { hit: 3, miss: 60 },
        _ => Core { hit: 4, miss: 100 },
    }
}

// In misses: a core on which a hit takes nothing and a miss one cycle.
pub(crate) fn misses_alone() -> Core {
    Core { hit: 0, miss: 1 }
}

// n × cycles, for at most 4,096 accesses of at most 100 cycles each.
fn times(n: u64, cycles: u64) -> u64 {
    if 4096 < n {
        return MOST;
    }
    if 100 < cycles {
        return MOST;
    }
    n * cycles
}

// The cycles of a path of `accesses` accesses, of which `misses` miss and the others hit.
pub(crate) fn cycles_of(core: Core, accesses: u64, misses: u64) -> u64 {
    if accesses < misses {
        return MOST;
    }
    plus(times(misses, core.miss), times(accesses - misses, core.hit))
}
