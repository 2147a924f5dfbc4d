// The cores of document 02, request 9/13, and the cycles of a path on them: written down here by themselves.
use sequences::numbers::{less, plus, times};

// The cycles of a hit, and of a miss.
#[derive(Clone, Copy)]
pub(crate) struct Core {
    pub hit: u64,
    pub miss: u64,
}

const CORES: [Core; 12] = [
    Core { hit: 1, miss: 8 },
    Core { hit: 1, miss: 10 },
    Core { hit: 1, miss: 12 },
    Core { hit: 1, miss: 20 },
    Core { hit: 2, miss: 10 },
    Core { hit: 2, miss: 16 },
    Core { hit: 2, miss: 24 },
    Core { hit: 2, miss: 40 },
    Core { hit: 3, miss: 15 },
    Core { hit: 3, miss: 30 },
    Core { hit: 3, miss: 60 },
    Core { hit: 4, miss: 100 },
];

// The core of a number below 12.
pub(crate) fn core_of(number: usize) -> Core {
    CORES
        .get(number)
        .copied()
        .unwrap_or(Core { hit: 0, miss: 0 })
}

// The cycles of `misses` misses, and of hits for the rest of the `accesses` accesses.
pub(crate) fn cycles_of(core: Core, accesses: u64, misses: u64) -> u64 {
    plus(
        times(misses, core.miss),
        times(less(accesses, misses), core.hit),
    )
}
