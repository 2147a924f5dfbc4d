// The slots of the working room: a node's table, and no states behind it.
ghost use Rattle.std.specs.Prelude.{◌≡◌, ◌+◌, ◌-◌, ◌*◌, ◌≤◌, length, take, drop, replicate};
ghost use Rattle.std.proofs.Math.Seq.{paste};
ghost use Rattle.best.specs.Tables.{no_state};
ghost use Rattle.words.specs.BestTables.{table_of};
ghost use Rattle.best.specs.Rooms.{filled};

use crate::memory::load;

// How many states the table at place `at` has: those before the first of 0 units, of 64.
pub(crate) fn count(work: &[u64], at: usize) -> usize
    requires { (at + 64) * 5 ≤ length work.now }
    ensures { result ≡ filled (take 64 (drop at (table_of work.now))) }
{
    for n in 0..64 {
        let u = load(work, at + n).units;
        if u.0 == 0 {
            return n;
        }
    }
    64
}

// No state stands behind the `n` states at place `at`, of 64.
pub(crate) fn seal(work: &mut [u64], at: usize, n: usize)
    requires { (n ≤ 64) × ((at + 64) * 5 ≤ length work.old) }
    ensures { table_of work.new ≡ paste (table_of work.old) (at + n) (replicate 64 no_state) (64 - n) }
{
    work[(at + n) * 5..(at + 64) * 5].fill(0);
}
