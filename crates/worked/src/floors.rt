// The lines of the best case (document 02, request 10/13): the spreads of misses and of hits of its table; what its call leaves in its rooms is compared as for any graph. The fields are those of a
// graph, and two more:
//
//     floor NAME | .. | answer | states | units at each miss count | units at each hit count
//
// where a state is exact/mask/misses/hits/units, with 1 for an exact one and 0 for an open one.
use best_questions::{hit_spread_in, miss_spread_in};
use case_text::fields::field_of;
use case_text::report::Report;
use case_text::rooms::{has_only, mark};
use case_text::shown::{say, say_answer};
use rules::Refusal;

// The largest count that is there and one more; 0 where the spread is refused.
fn counts_of(answer: Result<u64, Refusal>) -> usize {
    match answer {
        Ok(most) => behind(most),
        Err(_) => 0,
    }
}

fn behind(most: u64) -> usize {
    if 4096 < most {
        return 0;
    }
    most as usize + 1
}

// The numbers of a field: `counts` of them, and the rest of the room is zero.
fn compare_field(numbers: &[u64], room: &[u64], counts: usize, report: Report) -> Report {
    report
        .compared(counts == numbers.len())
        .compared(has_only(room, numbers))
}

// The spreads: of misses in field 9, of hits in field 10.
fn compare_spreads(table: &[u64], states: usize, line: &[u64], report: Report) -> Report {
    let mut room: [u64; 12] = [0; 12];
    mark(&mut room);
    let misses = counts_of(miss_spread_in(table, states, &mut room).map(|misses| misses.0));
    let held = compare_field(field_of(line, 9), &room, misses, report);
    mark(&mut room);
    let hits = counts_of(hit_spread_in(table, states, &mut room).map(|hits| hits.0));
    compare_field(field_of(line, 10), &room, hits, held)
}

// What the call gave is written, `refusal` being its number and `states` how many states there are, and the spreads are compared.
pub(crate) fn ask_floor(
    refusal: u64,
    states: usize,
    line: &[u64],
    res: &[u64],
    report: Report,
) -> Report {
    if refusal != 0 {
        say_answer(refusal);
        return report;
    }
    say(b": states ", states as u64);
    compare_spreads(res, states, line, report)
}
