// The cores in service: their hit cycles and their miss cycles.
#![tactic(auto)]

ghost use Rattle.std.specs.Prelude.{◌≡◌};
ghost use Rattle.rules.specs.Cycles.{core_at};

use rules::Core;

// The cores in service: document 02, request 9/13.
const CORES: [Core; 12] = [
    Core { hit: 1, miss: 8 },
    Core { hit: 1, miss: 10 },
    Core { hit: 1, miss: 12 },
    Core { hit: 1, miss: 20 },
    Core { hit: 2, miss: 10 },
    Core { hit: 2, miss: 16 },
    Core { hit: 2, miss: 24 },
    Core { hit: 2, miss: 40 },
    Core { hit: 3, miss: 15 },
    Core { hit: 3, miss: 30 },
    Core { hit: 3, miss: 60 },
    Core { hit: 4, miss: 100 },
];

// The core of a number; past the last one there is none, and it takes no cycles.
pub fn core_at(number: usize) -> Core
    ensures { result ≡ core_at number }
{
    if number < 12 {
        return CORES[number];
    }
    Core { hit: 0, miss: 0 }
}
