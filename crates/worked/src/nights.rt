// The lines of a nightly build: what the call answers, and what stands in the rows, the working room and the report after it. The fields are
//
//     overnight NAME | words of the rows and of the working room, allowance, answer | numbers | rows | report
//
// where the answer is 0 or the number of a refusal, which leaves all three as they were.
use case_text::fields::{copy_small, count, field_of, list_of, number};
use case_text::report::Report;
use case_text::rooms::{first, has_only, is_cleared, is_left, mark};
use case_text::shown::say_answer;
use nightly::build;
use rules::Refusal;

// The answer and the report; a refusal has none.
fn compare_built(
    answer: Result<night_rows::Report, Refusal>,
    line: &[u64],
    report: Report,
) -> Report {
    let expected = number(line, 1, 3);
    match answer {
        Err(why) => {
            let refusal = why.number();
            say_answer(refusal);
            report
                .compared(refusal == expected)
                .compared(count(line, 4) == 0)
        }
        Ok(found) => {
            say_answer(0);
            let words: [u64; 8] = [
                found.accepted,
                found.text,
                found.ways,
                found.limit,
                found.tracked,
                found.accesses,
                found.graph,
                found.aside,
            ];
            report
                .compared(expected == 0)
                .compared(has_only(&words, field_of(line, 4)))
        }
    }
}

// The answer, and both rooms.
fn compare(
    built: Result<night_rows::Report, Refusal>,
    line: &[u64],
    rows: &[u64],
    work: &[u64],
    report: Report,
) -> Report {
    let answer = number(line, 1, 3);
    compare_built(built, line, report)
        .compared(is_left(answer, rows, field_of(line, 3)))
        .compared(is_cleared(answer, work))
}

// A line in these rooms.
fn night_in(
    line: &[u64],
    numbers: &[u32],
    rows: &mut [u64],
    work: &mut [u64],
    report: Report,
) -> Report {
    mark(rows);
    mark(work);
    let built = build(numbers, number(line, 1, 2), rows, work);
    compare(built, line, rows, work, report)
}

pub(crate) fn night_line(line: &[u64], report: Report) -> Report {
    let mut list: [u32; 4352] = [0; 4352];
    let mut row_room: [u64; 1300] = [0; 1300];
    let mut work_room: [u64; 26250] = [0; 26250];
    copy_small(line, &mut list);
    let rows = first(&mut row_room, number(line, 1, 0));
    let work = first(&mut work_room, number(line, 1, 1));
    night_in(line, list_of(line, &list, 2), rows, work, report)
}
