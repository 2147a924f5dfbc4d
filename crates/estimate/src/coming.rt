// What is still to come of the runs of a table, put to the scratch head after head, in the order of the contents that they come to: most of it then goes behind all that has come.
ghost use Rattle.std.specs.Prelude.{◌≡◌, true, cond, suc, ◌+◌, ◌-◌, ◌*◌, ◌^◌, ◌≤◌, ◌<◌, ltb, length, get_or, take, drop};
ghost use mathlib.Core.List.{map, flat_map};
ghost use Rattle.rules.specs.Shape.{Every};
ghost use Rattle.rules.specs.Table.{rising, add, state_at};
ghost use Rattle.heads.specs.Head.{stream_in, next_head};
ghost use Rattle.heads.specs.Row.{moved_on};
ghost use Rattle.words.specs.Tables.{table_of};
ghost use Rattle.estimate.specs.Following.{Placed, Workable};
ghost use Rattle.estimate.specs.Going.{Waits};
ghost use Rattle.estimate.specs.Merging.{part};
ghost use Rattle.estimate.specs.Rooms.{InScratch};
ghost use Rattle.estimate.specs.ToCome.{mask_in, run_in, to_come};

use crate::merge::put_run;
use crate::placing::Reached;
use heads::{contents_in, length_in, move_on, next_head, start_in, stream_in};
use rules::Target;
use tables::with_block;

// The contents of the state at place `at`.
pub(crate) fn mask_at(work: &[u64], at: usize) -> u64
    requires { at * 5 + 5 ≤ length work.now }
    ensures { result ≡ (state_at (table_of work.now) at).mask }
{
    work[at * 5]
}

// Where the states of contents `to` begin among the first `n` states of the scratch, if that is at the end or at place `near`; else 0. The contents of all before are below.
pub(crate) fn segment(work: &[u64], n: usize, near: usize, to: u64) -> usize
    requires { (near ≤ n) × (20480 + n * 5 ≤ length work.now) × (rising (take n (drop 4096 (table_of work.now))) ≡ true) }
    ensures { (result ≤ n) × Every (λ t. t.mask < to) (take result (take n (drop 4096 (table_of work.now)))) }
{
    if n == 0 {
        return 0;
    }
    if mask_at(work, 4095 + n) < to {
        return n;
    }
    if near == 0 {
        return 0;
    }
    if mask_at(work, 4095 + near) < to {
        return near;
    }
    0
}

// What comes next of `head`, of a run of contents `mask`, has come: the place of the head that is next, which is the one behind it where nothing of its run is left.
pub(crate) fn pass_on(heads: &mut [u64], at: usize, head: u64, mask: u64, own: u64) -> usize
    requires { at < 2 ^ 32 }
    ensures value { result ≡ cond (ltb 15 (stream_in head)) (suc at) at }
    ensures heads_after { heads.new ≡ cond (ltb 15 (stream_in head)) heads.old (moved_on at (next_head mask own head) heads.old) }
{
    if 15 < stream_in(head) {
        return at + 1;
    }
    move_on(heads, at, next_head(mask, own, head));
    at
}

// What comes next of `head`, of a run of contents `mask` of the `m` states at place `from`, put to the scratch, where the states of the contents that came before begin at `reached.at`, if
// they do.
pub(crate) fn put_head(
    work: &mut [u64],
    parts: &[u64],
    reached: Reached,
    from: usize,
    m: usize,
    x: Target,
    ways: u64,
    head: u64,
    mask: u64,
) -> Reached
    requires { Placed x × (ways ≤ 16) × (m ≤ 64) × (from + m ≤ 4096) × (25920 ≤ length work.old) × (64 ≤ length parts.now) × Every (Workable ways x) (take m (drop from (table_of work.old))) × (rising (take m (drop from (table_of work.old))) ≡ true) × Waits ways x (take m (drop from (table_of work.old))) parts.now head × (mask ≡ mask_in (take m (drop from (table_of work.old))) head) × (reached.at ≤ reached.states) × (reached.states ≡ length (take reached.states (drop 4096 (table_of work.old)))) × (rising (take reached.states (drop 4096 (table_of work.old))) ≡ true) × (length (add (map (part ways x (stream_in head)) (run_in (take m (drop from (table_of work.old))) head)) (take reached.states (drop 4096 (table_of work.old)))) ≤ 1088) }
    ensures { InScratch (add (map (part ways x (stream_in head)) (run_in (take m (drop from (table_of work.old))) head)) (take reached.states (drop 4096 (table_of work.old)))) result.states (table_of work.old) (table_of work.new) × (result.at ≤ result.states) }
{
    let to = contents_in(head);
    let near = segment(work, reached.states, reached.at, to);
    let states = put_run(
        work,
        parts,
        reached.states,
        near,
        from,
        start_in(head),
        length_in(head),
        x,
        ways,
        stream_in(head),
        to,
        mask,
    );
    Reached { states, at: near }
}

// What is still to come of the runs of the `m` states at place `from`, whose heads are the first `count` of `heads`, put head after head to the first `n` states of the scratch; how many
// states it then has.
pub(crate) fn put_heads(
    work: &mut [u64],
    parts: &[u64],
    heads: &mut [u64],
    count: usize,
    n: usize,
    from: usize,
    m: usize,
    x: Target,
    ways: u64,
) -> usize
    requires { Placed x × (ways ≤ 16) × (m ≤ 64) × (from + m ≤ 4096) × (25920 ≤ length work.old) × (64 ≤ length parts.now) × Every (Workable ways x) (take m (drop from (table_of work.old))) × (rising (take m (drop from (table_of work.old))) ≡ true) × (count < length heads.old) × (length heads.old ≤ 65) × (get_or heads.old count 0 ≡ 18446744073709551615) × (get_or heads.old (length heads.old - 1) 0 ≡ 18446744073709551615) × Every (Waits ways x (take m (drop from (table_of work.old))) parts.now) (take count heads.old) × (n ≡ length (take n (drop 4096 (table_of work.old)))) × (rising (take n (drop 4096 (table_of work.old))) ≡ true) × (length (add (flat_map (to_come ways x (take m (drop from (table_of work.old)))) (take count heads.old)) (take n (drop 4096 (table_of work.old)))) ≤ 1088) }
    ensures { InScratch (add (flat_map (to_come ways x (take m (drop from (table_of work.old)))) (take count heads.old)) (take n (drop 4096 (table_of work.old)))) result (table_of work.old) (table_of work.new) }
{
    let place = x.place;
    let own = with_block(0, place);
    let mut so_far = Reached { states: n, at: 0 };
    let mut i: usize = 0;
    // A head stays or gives way to the next of its run: only `pass_on` says whether the place moves.
    while i < count {
        let head = heads[i];
        let mask = mask_at(work, from + start_in(head));
        so_far = put_head(work, parts, so_far, from, m, x, ways, head, mask);
        i = pass_on(heads, i, head, mask, own);
    }
    so_far.states
}
