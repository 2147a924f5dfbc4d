// The lines of the quick question: whether the numbers of a row at places above the budget are within the allowance. The fields are
//
//     inside NAME | budget, allowance, answer | numbers
//
// where the answer is 1 for yes and 0 for no.
use case_text::fields::number;
use case_text::report::Report;
use quick::within;

pub(crate) fn quick_line(line: &[u64], row: &[u64], report: Report) -> Report {
    let answer = number(line, 1, 2);
    if within(row, number(line, 1, 0), number(line, 1, 1)) {
        io::write_all(1, b": yes\n");
        return report.compared(answer == 1);
    }
    io::write_all(1, b": no\n");
    report.compared(answer == 0)
}
