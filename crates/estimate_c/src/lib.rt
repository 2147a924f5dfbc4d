// The estimate for C: what include/estimate.h declares. Each function calls the one in Rattle that answers (`estimate_graph` calls `analyse`, the questions call
// those of a table in words or of a lent row), and gives the answer as numbers.
#![tactic(auto)]

ghost use Rattle.std.specs.Prelude.{◌≡◌, take};
ghost use Rattle.rules.specs.Cycles.{above_cycles_answer, cycle_budget_answer};
ghost use Rattle.rules.specs.Input.{input_of};
ghost use Rattle.rules.specs.Longest.{longest_answer};
ghost use Rattle.rules.specs.Questions.{above_answer, budget_answer, spread_answer};
ghost use Rattle.rules.specs.Within.{is_within};
ghost use Rattle.words.specs.Tables.{table_of};
ghost use Rattle.listing.specs.Call.{after_expanding};
ghost use Rattle.estimate.specs.Call.{analysed, analysed_paired};
ghost use Rattle.recorder.specs.Calls.{trace_read, trace_listed, trace_written};
ghost use Rattle.nightly.specs.Call.{after_build};
ghost use Rattle.printed.specs.Rooms.{after_numbers, after_text, after_cycles_of_numbers, after_cycles_of_text};
ghost use Rattle.given.specs.Answers.{cache_given, amount_given, count_given};
ghost use Rattle.estimate_c.specs.Given.{graph_given, listing_given, spread_given, read_given, counted_given, numbers_given, text_given, yes_given, nightly_given};

use estimate::{analyse, analyse_paired};
use given::{bytes_of, cache_named, give_count, give_outcome, give_reading, give_sizes};
use listing::expand;
use longest::longest_path;
use nightly::build;
use questions::{above_cycles_in, above_in, smallest_budget_in, smallest_cycles_in, spread_in};
use quick::within;
use recorder::{list_damaged, read_trace, write_trace};
use rows::{above, above_cycles, smallest_budget, smallest_cycles, spread};
use rules::State;
use text::{curve_of_numbers, curve_of_text, cycles_of_numbers, cycles_of_text};

mod best_case;

// The graph call.
#[unsafe(no_mangle)]
pub extern "C" fn estimate_graph(
    sets: u32,
    ways: u32,
    revision: u32,
    warm: bool,
    limit: u32,
    tracked: &[u32],
    runs: &[u32],
    accesses: &[u32],
    edges: &[u32],
    res: &mut [u64],
    work: &mut [u64],
    states: &mut usize,
    aside: &mut u64,
) -> u64
    ensures { record { answer = record { number = result; states = states.new; aside = aside.new }; result = res.new; work = work.new } ≡ graph_given (analysed (cache_given sets ways revision warm) limit tracked.now runs.now accesses.now edges.now res.old work.old) states.old aside.old }
{
    give_outcome(
        analyse(
            cache_named(sets, ways, revision, warm),
            limit,
            tracked,
            runs,
            accesses,
            edges,
            res,
            work,
        ),
        states,
        aside,
    )
}

// The graph call with a pairing or none for each join.
#[unsafe(no_mangle)]
pub extern "C" fn estimate_graph_paired(
    sets: u32,
    ways: u32,
    revision: u32,
    warm: bool,
    limit: u32,
    tracked: &[u32],
    runs: &[u32],
    accesses: &[u32],
    edges: &[u32],
    counts: &[u64],
    rows: &[u64],
    res: &mut [u64],
    work: &mut [u64],
    states: &mut usize,
    aside: &mut u64,
) -> u64
    ensures { record { answer = record { number = result; states = states.new; aside = aside.new }; result = res.new; work = work.new } ≡ graph_given (analysed_paired (cache_given sets ways revision warm) limit tracked.now runs.now accesses.now edges.now counts.now rows.now res.old work.old) states.old aside.old }
{
    give_outcome(
        analyse_paired(
            cache_named(sets, ways, revision, warm),
            limit,
            tracked,
            runs,
            accesses,
            edges,
            counts,
            rows,
            res,
            work,
        ),
        states,
        aside,
    )
}

// The units above a budget.
#[unsafe(no_mangle)]
pub extern "C" fn estimate_above(table: &[u64], states: usize, budget: u64, units: &mut u64) -> u64
    ensures { record { number = result; value = units.new } ≡ amount_given (above_answer (take states (table_of table.now)) budget) units.old }
{
    give_count(above_in(table, states, budget).map(|units| units.0), units)
}

// The smallest budget for an allowance.
#[unsafe(no_mangle)]
pub extern "C" fn estimate_smallest_budget(
    table: &[u64],
    states: usize,
    allowance: u64,
    budget: &mut u64,
) -> u64
    ensures { record { number = result; value = budget.new } ≡ count_given (budget_answer (take states (table_of table.now)) allowance) budget.old }
{
    give_count(smallest_budget_in(table, states, allowance), budget)
}

// The units at each miss count.
#[unsafe(no_mangle)]
pub extern "C" fn estimate_spread(
    table: &[u64],
    states: usize,
    counts: &mut [u64],
    largest: &mut u64,
) -> u64
    ensures { record { answer = record { number = result; value = largest.new }; room = counts.new } ≡ spread_given (spread_answer (take states (table_of table.now)) counts.old) largest.old }
{
    give_count(spread_in(table, states, counts), largest)
}

// A quick yes or no: whether the numbers of a spread at places above a budget sum to at most an allowance.
#[unsafe(no_mangle)]
pub extern "C" fn estimate_within(spread: &[u64], budget: u64, allowance: u64) -> u64
    ensures { result ≡ yes_given (is_within spread.now budget allowance) }
{
    if within(spread, budget, allowance) {
        return 1;
    }
    0
}

// The accesses of the longest path.
#[unsafe(no_mangle)]
pub extern "C" fn estimate_longest_path(
    sets: u32,
    ways: u32,
    revision: u32,
    warm: bool,
    limit: u32,
    tracked: &[u32],
    runs: &[u32],
    accesses: &[u32],
    edges: &[u32],
    longest: &mut u64,
) -> u64
    ensures { record { number = result; value = longest.new } ≡ count_given (longest_answer (input_of (cache_given sets ways revision warm) limit tracked.now runs.now accesses.now edges.now)) longest.old }
{
    give_count(
        longest_path(
            cache_named(sets, ways, revision, warm),
            limit,
            tracked,
            runs,
            accesses,
            edges,
        ),
        longest,
    )
}

// The units above a cycle budget.
#[unsafe(no_mangle)]
pub extern "C" fn estimate_above_cycles(
    table: &[u64],
    states: usize,
    core: usize,
    longest: u64,
    budget: u64,
    units: &mut u64,
) -> u64
    ensures { record { number = result; value = units.new } ≡ amount_given (above_cycles_answer (take states (table_of table.now)) core longest budget) units.old }
{
    give_count(
        above_cycles_in(table, states, core, longest, budget).map(|units| units.0),
        units,
    )
}

// The smallest cycle budget for an allowance.
#[unsafe(no_mangle)]
pub extern "C" fn estimate_smallest_cycles(
    table: &[u64],
    states: usize,
    core: usize,
    longest: u64,
    allowance: u64,
    cycles: &mut u64,
) -> u64
    ensures { record { number = result; value = cycles.new } ≡ count_given (cycle_budget_answer (take states (table_of table.now)) core longest allowance) cycles.old }
{
    give_count(
        smallest_cycles_in(table, states, core, longest, allowance),
        cycles,
    )
}

// The same questions, put to a lent row of states: each is `give(ask(row, ..), ..)`. The units above a budget.
#[unsafe(no_mangle)]
pub extern "C" fn estimate_row_above(row: &[State], budget: u64, units: &mut u64) -> u64
    ensures { record { number = result; value = units.new } ≡ amount_given (above_answer row.now budget) units.old }
{
    give_count(above(row, budget).map(|units| units.0), units)
}

// The smallest budget for an allowance.
#[unsafe(no_mangle)]
pub extern "C" fn estimate_row_smallest_budget(
    row: &[State],
    allowance: u64,
    budget: &mut u64,
) -> u64
    ensures { record { number = result; value = budget.new } ≡ count_given (budget_answer row.now allowance) budget.old }
{
    give_count(smallest_budget(row, allowance), budget)
}

// The units at each miss count.
#[unsafe(no_mangle)]
pub extern "C" fn estimate_row_spread(row: &[State], counts: &mut [u64], largest: &mut u64) -> u64
    ensures { record { answer = record { number = result; value = largest.new }; room = counts.new } ≡ spread_given (spread_answer row.now counts.old) largest.old }
{
    give_count(spread(row, counts), largest)
}

// The units above a cycle budget.
#[unsafe(no_mangle)]
pub extern "C" fn estimate_row_above_cycles(
    row: &[State],
    core: usize,
    longest: u64,
    budget: u64,
    units: &mut u64,
) -> u64
    ensures { record { number = result; value = units.new } ≡ amount_given (above_cycles_answer row.now core longest budget) units.old }
{
    give_count(
        above_cycles(row, core, longest, budget).map(|units| units.0),
        units,
    )
}

// The smallest cycle budget for an allowance.
#[unsafe(no_mangle)]
pub extern "C" fn estimate_row_smallest_cycles(
    row: &[State],
    core: usize,
    longest: u64,
    allowance: u64,
    cycles: &mut u64,
) -> u64
    ensures { record { number = result; value = cycles.new } ≡ count_given (cycle_budget_answer row.now core longest allowance) cycles.old }
{
    give_count(smallest_cycles(row, core, longest, allowance), cycles)
}

// The accesses of a trace.
#[unsafe(no_mangle)]
pub extern "C" fn estimate_trace_read(
    trace: &[u8],
    accesses: &mut [u32],
    count: &mut usize,
    place: &mut usize,
) -> u64
    ensures { record { answer = record { number = result; count = count.new; place = place.new }; room = accesses.new } ≡ read_given (trace_read trace.now accesses.old) count.old place.old }
{
    give_reading(read_trace(trace, accesses), count, place)
}

// The places of a trace's damaged blocks.
#[unsafe(no_mangle)]
pub extern "C" fn estimate_trace_damaged(trace: &[u8], places: &mut [u64], count: &mut usize) -> u64
    ensures { record { answer = record { number = result; value = count.new }; room = places.new } ≡ counted_given (trace_listed trace.now places.old) count.old }
{
    match list_damaged(trace, places) {
        Ok(found) => {
            *count = found;
            0
        }
        Err(reason) => reason.number(),
    }
}

// The trace of a run of accesses.
#[unsafe(no_mangle)]
pub extern "C" fn estimate_trace_write(
    accesses: &[u32],
    trace: &mut [u8],
    blocks: &mut usize,
) -> u64
    ensures { record { answer = record { number = result; value = blocks.new }; room = trace.new } ≡ counted_given (trace_written accesses.now trace.old) blocks.old }
{
    match write_trace(accesses, trace) {
        Ok(found) => {
            *blocks = found;
            0
        }
        Err(reason) => reason.number(),
    }
}

// The graph of a listing.
#[unsafe(no_mangle)]
pub extern "C" fn estimate_listing(
    tokens: &[u32],
    runs: &mut [u32],
    accesses: &mut [u32],
    edges: &mut [u32],
    nodes: &mut usize,
    access_count: &mut usize,
    edge_count: &mut usize,
) -> u64
    ensures { record { answer = record { number = result; nodes = nodes.new; access_count = access_count.new; edge_count = edge_count.new }; runs = runs.new; accesses = accesses.new; edges = edges.new } ≡ listing_given (after_expanding tokens.now runs.old accesses.old edges.old) nodes.old access_count.old edge_count.old }
{
    give_sizes(
        expand(tokens, runs, accesses, edges),
        nodes,
        access_count,
        edge_count,
    )
}

// The nightly build; the report is written number by number.
#[unsafe(no_mangle)]
pub extern "C" fn estimate_nightly(
    numbers: &[u32],
    allowance: u64,
    rows: &mut [u64],
    work: &mut [u64],
    accepted: &mut u64,
    text: &mut u64,
    ways: &mut u64,
    limit: &mut u64,
    tracked: &mut u64,
    accesses: &mut u64,
    graph: &mut u64,
    aside: &mut u64,
) -> u64
    ensures { record { number = result; report = record { accepted = accepted.new; text = text.new; ways = ways.new; limit = limit.new; tracked = tracked.new; accesses = accesses.new; graph = graph.new; aside = aside.new }; rows = rows.new; work = work.new } ≡ nightly_given (after_build numbers.now allowance rows.old work.old) (record { accepted = accepted.old; text = text.old; ways = ways.old; limit = limit.old; tracked = tracked.old; accesses = accesses.old; graph = graph.old; aside = aside.old }) }
{
    match build(numbers, allowance, rows, work) {
        Ok(found) => {
            *accepted = found.accepted;
            *text = found.text;
            *ways = found.ways;
            *limit = found.limit;
            *tracked = found.tracked;
            *accesses = found.accesses;
            *graph = found.graph;
            *aside = found.aside;
            0
        }
        Err(reason) => reason.number(),
    }
}

// The curve of a text.
#[unsafe(no_mangle)]
pub extern "C" fn estimate_curve_of_text(
    text: &[u8],
    numbers: &mut [u32],
    res: &mut [u64],
    work: &mut [u64],
    counts: &mut [u64],
    output: &mut [u8],
) -> usize
    ensures { record { bytes = result; numbers = numbers.new; rooms = record { result = res.new; work = work.new; counts = counts.new; output = output.new } } ≡ text_given (after_text text.now numbers.old (record { result = res.old; work = work.old; counts = counts.old; output = output.old })) }
{
    bytes_of(curve_of_text(text, numbers, res, work, counts, output))
}

// The curve of numbers in the curve's order.
#[unsafe(no_mangle)]
pub extern "C" fn estimate_curve_of_numbers(
    numbers: &[u32],
    res: &mut [u64],
    work: &mut [u64],
    counts: &mut [u64],
    output: &mut [u8],
) -> usize
    ensures { record { bytes = result; rooms = record { result = res.new; work = work.new; counts = counts.new; output = output.new } } ≡ numbers_given (after_numbers numbers.now (record { result = res.old; work = work.old; counts = counts.old; output = output.old })) }
{
    bytes_of(curve_of_numbers(numbers, res, work, counts, output))
}

// The curves in cycles of a text.
#[unsafe(no_mangle)]
pub extern "C" fn estimate_cycles_of_text(
    text: &[u8],
    numbers: &mut [u32],
    res: &mut [u64],
    work: &mut [u64],
    counts: &mut [u64],
    output: &mut [u8],
) -> usize
    ensures { record { bytes = result; numbers = numbers.new; rooms = record { result = res.new; work = work.new; counts = counts.new; output = output.new } } ≡ text_given (after_cycles_of_text text.now numbers.old (record { result = res.old; work = work.old; counts = counts.old; output = output.old })) }
{
    bytes_of(cycles_of_text(text, numbers, res, work, counts, output))
}

// The curves in cycles of numbers in the curve's order.
#[unsafe(no_mangle)]
pub extern "C" fn estimate_cycles_of_numbers(
    numbers: &[u32],
    res: &mut [u64],
    work: &mut [u64],
    counts: &mut [u64],
    output: &mut [u8],
) -> usize
    ensures { record { bytes = result; rooms = record { result = res.new; work = work.new; counts = counts.new; output = output.new } } ≡ numbers_given (after_cycles_of_numbers numbers.now (record { result = res.old; work = work.old; counts = counts.old; output = output.old })) }
{
    bytes_of(cycles_of_numbers(numbers, res, work, counts, output))
}
