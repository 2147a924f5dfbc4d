// The calls on the lists of a graph's line. Its first field has the cache and the limit.
use best::analyse_best;
use case_text::fields::{copy_small, field_of, list_of, number, small};
use case_text::said::{Said, count_said};
use estimate::{analyse, analyse_paired};
use longest::longest_path;
use rules::{Cache, Finished, Refusal, Start};

// An answer in numbers: a refusal's number, or 0 with the number of states and the set-aside count. Kept as numbers, as a line of the cases tells them: each is a
// comparison of its own, which the programs count.
#[derive(Clone, Copy)]
pub(crate) struct Got {
    pub refusal: u64,
    pub states: usize,
    pub aside: u64,
}

fn refused(refusal: u64) -> Got {
    Got {
        refusal,
        states: 0,
        aside: 0,
    }
}

fn got_of(outcome: Result<Finished, Refusal>) -> Got {
    match outcome {
        Ok(Finished { states, aside }) => Got {
            refusal: 0,
            states,
            aside: aside.0,
        },
        Err(why) => refused(why.number()),
    }
}

// The same of the best case, which sets nothing aside.
fn got_of_best(outcome: Result<usize, Refusal>) -> Got {
    match outcome {
        Ok(states) => Got {
            refusal: 0,
            states,
            aside: 0,
        },
        Err(why) => refused(why.number()),
    }
}

// The cache of a line.
fn cache_of(line: &[u64]) -> Cache {
    let used = number(line, 1, 4) == 1;
    Cache {
        sets: small(number(line, 1, 0)),
        ways: small(number(line, 1, 1)),
        revision: small(number(line, 1, 2)),
        start: Start::from(used),
    }
}

fn limit_of(line: &[u64]) -> u32 {
    small(number(line, 1, 3))
}

// The longest path. The numbers of the lists are 32 bits.
pub(crate) fn path_of(line: &[u64]) -> Said {
    let mut list: [u32; 4352] = [0; 4352];
    copy_small(line, &mut list);
    count_said(longest_path(
        cache_of(line),
        limit_of(line),
        list_of(line, &list, 2),
        list_of(line, &list, 3),
        list_of(line, &list, 4),
        list_of(line, &list, 5),
    ))
}

// The graph call.
fn worst(line: &[u64], list: &[u32], res: &mut [u64], work: &mut [u64]) -> Got {
    got_of(analyse(
        cache_of(line),
        limit_of(line),
        list_of(line, list, 2),
        list_of(line, list, 3),
        list_of(line, list, 4),
        list_of(line, list, 5),
        res,
        work,
    ))
}

// The best case's call.
fn surest(line: &[u64], list: &[u32], res: &mut [u64], work: &mut [u64]) -> Got {
    let cache = cache_of(line);
    got_of_best(analyse_best(
        cache.sets,
        cache.ways,
        cache.revision,
        limit_of(line),
        list_of(line, list, 2),
        list_of(line, list, 3),
        list_of(line, list, 4),
        list_of(line, list, 5),
        res,
        work,
    ))
}

// The graph call with the pairings of a line.
fn paired(line: &[u64], list: &[u32], res: &mut [u64], work: &mut [u64]) -> Got {
    got_of(analyse_paired(
        cache_of(line),
        limit_of(line),
        list_of(line, list, 2),
        list_of(line, list, 3),
        list_of(line, list, 4),
        list_of(line, list, 5),
        field_of(line, 9),
        field_of(line, 10),
        res,
        work,
    ))
}

// The call that a line is about.
pub(crate) fn called(kind: u8, line: &[u64], res: &mut [u64], work: &mut [u64]) -> Got {
    let mut list: [u32; 4352] = [0; 4352];
    copy_small(line, &mut list);
    match kind {
        b'f' => surest(line, &list, res, work),
        b'j' | b'u' => paired(line, &list, res, work),
        _ => worst(line, &list, res, work),
    }
}
