// The runs of a table, each as a head: which states it has, and in which streams something of them is to come.
ghost use Rattle.std.specs.Prelude.{◌+◌, ◌*◌, ◌≤◌, ◌<◌, ◌≡◌, length, take, drop};
ghost use Rattle.rules.specs.Contents.{hits, shared};
ghost use Rattle.rules.specs.Shape.{Every};
ghost use Rattle.words.specs.Tables.{table_of};
ghost use Rattle.heads.specs.Head.{head_of, streams_for};
ghost use Rattle.estimate.specs.Following.{Placed, Workable};
ghost use Rattle.estimate.specs.ToCome.{RunsListed};

use crate::memory::load;
use crate::merge::run_of;
use heads::{head_of, insert_head, streams_of};
use rules::Target;
use states::step::{fills, held_of};
use tables::{has_block, with_block};

// The head of a run of contents `mask`.
pub(crate) fn first_head(mask: u64, filling: bool, stretch: u64, x: Target, own: u64) -> u64
    requires { Placed x }
    ensures { result ≡ head_of mask own stretch (streams_for (hits x mask) filling (shared mask x.mates)) }
{
    let place = x.place;
    let hit = has_block(mask, x.again, place);
    head_of(
        mask,
        own,
        stretch,
        streams_of(hit, filling, held_of(mask, x)),
    )
}

// The heads of all runs of the `m` states at place `from`; how many they are.
pub(crate) fn list_runs(
    work: &[u64],
    heads: &mut [u64],
    from: usize,
    m: usize,
    x: Target,
    ways: u64,
) -> usize
    requires { Placed x × (m ≤ 64) × ((from + m) * 5 ≤ length work.now) × (m < length heads.old) × Every (Workable ways x) (take m (drop from (table_of work.now))) }
    ensures { RunsListed ways x (take m (drop from (table_of work.now))) result heads.old heads.new }
{
    let place = x.place;
    let own = with_block(0, place);
    let mut count: usize = 0;
    let mut at: usize = 0;
    // From run to run: each is as long as its states say.
    while at < m {
        let first = load(work, from + at);
        let filling = fills(first, x, ways);
        let run = run_of(work, from + at, m - at, x, ways, first.mask, filling);
        let head = first_head(first.mask, filling, at as u64 * 128 + run as u64, x, own);
        insert_head(heads, count, head);
        count += 1;
        at += run;
    }
    count
}
