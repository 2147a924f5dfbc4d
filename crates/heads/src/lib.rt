// What is still to come of the runs of a table, a number for each, its head, in the order of the contents that it comes to next. Nothing is asked of the arguments.
#![tactic(auto)]

ghost use Rattle.std.specs.Prelude.{◌≡◌};
ghost use Rattle.rules.specs.Contents.{bit};
ghost use Rattle.heads.specs.Head.{streams_in, stream_in, stretch_in, length_in, start_in, contents_in, first_stream, contents_at, head_of, next_head, streams_for};
ghost use Rattle.heads.specs.Row.{inserted, moved_on};

use tables::{has_place, highest_place, without_place};

// The streams in which something of a run is still to come.
fn streams_in(head: u64) -> u64
    ensures { result ≡ streams_in head }
{
    head % 524288
}

// The stream in which something of it comes next.
pub fn stream_in(head: u64) -> usize
    ensures { result ≡ stream_in head }
{
    (head / 524288 % 32) as usize
}

// Which states it has: the place of the first times 128, and how many they are.
fn stretch_in(head: u64) -> u64
    ensures { result ≡ stretch_in head }
{
    head / 16777216 % 8192
}

// How many states it has.
pub fn length_in(head: u64) -> usize
    ensures { result ≡ length_in head }
{
    (head / 16777216 % 128) as usize
}

// The place of the first of them.
pub fn start_in(head: u64) -> usize
    ensures { result ≡ start_in head }
{
    (head / 2147483648 % 64) as usize
}

// The contents that they come to next.
pub fn contents_in(head: u64) -> u64
    ensures { result ≡ contents_in head }
{
    head / 1099511627776
}

// Whether something of it is to come that misses where all ways may be filled, and loses nothing.
pub fn keeps_in(head: u64) -> bool
    ensures { result ≡ bit (streams_in head) 16 }
{
    has_place(streams_in(head), 16)
}

// The stream in which a run goes on next, of `streams`: that which loses the highest place, or where none is lost the highest of all.
fn first_stream(streams: u64) -> usize
    ensures { result ≡ first_stream streams }
{
    let lost = streams % 65536;
    if lost == 0 {
        return highest_place(streams);
    }
    highest_place(lost)
}

// The contents that `mask` comes to in stream `k`; `own` is the block that is accessed.
fn contents_at(mask: u64, own: u64, k: usize) -> u64
    ensures { result ≡ contents_at mask own k }
{
    if k < 16 {
        return without_place(mask, k) | own;
    }
    mask | own
}

// The head of a run of contents `mask`, of which something is to come in `streams`.
pub fn head_of(mask: u64, own: u64, stretch: u64, streams: u64) -> u64
    ensures { result ≡ head_of mask own stretch streams }
{
    let left = streams % 524288;
    let k = first_stream(left);
    let contents = contents_at(mask, own, k) % 16777216;
    contents * 1099511627776 + stretch % 8192 * 16777216 + k as u64 * 524288 + left
}

// The head of the same run, of contents `mask`, when what comes next of it has come.
pub fn next_head(mask: u64, own: u64, head: u64) -> u64
    ensures { result ≡ next_head mask own head }
{
    let left = without_place(streams_in(head), stream_in(head));
    head_of(mask, own, stretch_in(head), left)
}

// The streams that have something of a run: of hits, of states that fill an empty way, or of those that can lose the blocks of `held`.
pub fn streams_of(hit: bool, filling: bool, held: u64) -> u64
    ensures { result ≡ streams_for hit filling held }
{
    if hit {
        return 262144;
    }
    if filling {
        return 131072;
    }
    held % 65536 + 65536
}

// `head` is put among the first `count` heads, behind those that are less, if there is room for one more.
pub fn insert_head(heads: &mut [u64], count: usize, head: u64)
    ensures { heads.new ≡ inserted count head heads.old }
{
    if heads.len() <= count {
        return;
    }
    for j in (0..count).rev() {
        let other = heads[j];
        if other < head {
            heads[j + 1] = head;
            return;
        }
        heads[j + 1] = other;
    }
    heads[0] = head;
}

// The head at place `at` becomes `head`, and goes on to before the first behind it that is not less, if the last is not.
pub fn move_on(heads: &mut [u64], at: usize, head: u64)
    ensures { heads.new ≡ moved_on at head heads.old }
{
    if heads.len() <= at {
        return;
    }
    let last = heads.len() - 1;
    if last <= at {
        return;
    }
    if heads[last] < head {
        return;
    }
    let mut j = at;
    let mut other = heads[j + 1];
    // As far as heads before it stand there; the last one, tested above, ends it: the place itself is never tested.
    while other < head {
        heads[j] = other;
        j += 1;
        other = heads[j + 1];
    }
    heads[j] = head;
}
