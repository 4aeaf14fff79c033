// A case for the runner, and for the tool that names the cell. All that is lent is drawn from the seed, so that what is left alone shows. Its
// line has both calls, each in memory drawn anew: the answer's number, node or index, cost and trace bytes; of the tool also the place, 512
// where there is none, and the count; digests of amounts, presence, labels and trace.

// Draws all that is lent.
fn draw(
    amounts: &mut [i32],
    presence: &mut [u64],
    labels: &mut [u64],
    trace: &mut [u8],
    seed: u32,
) {
    let after_amounts = case_lines::draw_amounts(amounts, seed);
    let after_presence = case_lines::draw_words(presence, after_amounts);
    let after_labels = case_lines::draw_words(labels, after_presence);
    case_lines::draw_bytes(trace, after_labels);
}

// Prints the four numbers of an answer.
fn print_answer(answer: monitor::Answer) {
    let values = entry::values_of(answer);
    case_lines::print(values.number as usize);
    case_lines::print(values.at);
    case_lines::print(values.cost as usize);
    case_lines::print(values.bytes);
}

// Prints the place and the count of an explanation.
fn print_reason(place: Option<usize>, count: u32) {
    case_lines::print(place.unwrap_or(512));
    case_lines::print(count as usize);
}

// Runs the file and prints the first half of the line.
fn run(
    file: &[u8],
    budget: u32,
    amounts: &mut [i32],
    presence: &mut [u64],
    labels: &mut [u64],
    trace: &mut [u8],
    seed: u32,
) {
    draw(amounts, presence, labels, trace, seed);
    let answer = runner::run(file, budget, amounts, presence, labels, trace);
    print_answer(answer);
    case_lines::print_cells(amounts, presence, labels);
    case_lines::print_bytes(trace);
}

// Explains the run and prints the second half.
fn explain(
    file: &[u8],
    budget: u32,
    amounts: &mut [i32],
    presence: &mut [u64],
    labels: &mut [u64],
    trace: &mut [u8],
    seed: u32,
) {
    draw(amounts, presence, labels, trace, seed);
    let explained = explainer::explain(file, budget, amounts, presence, labels, trace);
    let answer = explained.answer;
    let place = explained.place;
    print_answer(answer);
    print_reason(place, explained.count);
    case_lines::print_cells(amounts, presence, labels);
    case_lines::print_last(trace);
}

// Does a case and prints its line.
pub fn case(
    file: &[u8],
    budget: u32,
    amounts: &mut [i32],
    presence: &mut [u64],
    labels: &mut [u64],
    trace: &mut [u8],
    seed: u32,
) {
    run(file, budget, amounts, presence, labels, trace, seed);
    explain(file, budget, amounts, presence, labels, trace, seed);
}
