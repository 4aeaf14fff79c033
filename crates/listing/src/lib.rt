// The run list: a book from standard input is run, and a line printed for each trace record and one for how the run ended. The explained list
// has one line more, for the cell in the way of its stop; the list of a book that is carried forward ends with the book for the next day.
#![tactic(auto)]

ghost use Rattle.std.specs.Prelude.{◌+◌, ◌≤◌, length};

// The bytes read: the longest book has 60,000; one more is read, so that a longer input is refused and not cut.
const FILE: usize = 60001;

const BUDGET: u32 = 100000;

// The bytes of the trace.
const TRACE: usize = 4096;

// Room for the longest book.
const BOOK: usize = 60000;

// Prints a space and a number.
fn print_number(number: u64) {
    io::write_all(1, b" ");
    io::print_decimal(1, number);
}

// Prints a space and the amount that these 32 bits are, two's complement.
fn print_amount(bits: u32) {
    if bits < 2147483648 {
        print_number(bits as u64);
        return;
    }
    io::write_all(1, b" -");
    io::print_decimal(1, 4294967296 - bits as u64);
}

// Prints the line of a change of rights: what it does, the user and the region.
fn print_change(what: &[u8], user: usize, region: usize) {
    io::write_all(1, what);
    print_number(user as u64);
    print_number(region as u64);
    io::write_all(1, b"\n");
}

// Prints the line of an out: the user and the amount, by its bits.
fn print_out(user: usize, bits: u32) {
    io::write_all(1, b"out");
    print_number(user as u64);
    print_amount(bits);
    io::write_all(1, b"\n");
}

// Prints the line of a trace record.
fn print_record(record: &[u8; 8]) {
    let kind = record[0];
    let user = record[1] as usize;
    let region = record[2] as usize;
    match kind {
        1 => print_out(user, numbers::u32_at(record, 4)),
        2 => print_change(b"grant read", user, region),
        3 => print_change(b"grant write", user, region),
        4 => print_change(b"revoke read", user, region),
        _ => print_change(b"revoke write", user, region),
    }
}

// Prints the lines of the records in the first `bytes` bytes of the trace, which has as many.
fn print_records(trace: &[u8], bytes: usize) {
    if trace.len() < bytes {
        return;
    }
    let (records, _) = trace[..bytes].as_chunks::<8>();
    for record in records {
        print_record(record);
    }
}

// Prints the last line: how the run ended, and its numbers.
fn print_end(answer: monitor::Answer) {
    match answer {
        monitor::Answer::Refused(refusal) => {
            io::write_all(1, b"refused");
            print_number(refusal.reason.number() as u64);
            print_number(refusal.index as u64);
        }
        monitor::Answer::Stopped(number, node, cost, _) => {
            io::write_all(1, b"stop");
            print_number(number as u64);
            print_number(node as u64);
            print_number(cost as u64);
        }
        monitor::Answer::Finished(cost, _) => {
            io::write_all(1, b"done");
            print_number(cost as u64);
        }
    }
    io::write_all(1, b"\n");
}

// Prints the lines of a run.
fn print_run(trace: &[u8], answer: monitor::Answer) {
    let values = entry::values_of(answer);
    print_records(trace, values.bytes);
    print_end(answer);
}

// Prints the line of an explanation: the table, the owner and the line of its place, and how many places there are.
fn print_explanation(place: Option<usize>, count: u32) {
    io::write_all(1, b"place");
    match place {
        Some(number) => {
            print_number((number / 64) as u64);
            print_number((number / 8 % 8) as u64);
            print_number((number % 8) as u64);
        }
        None => {
            io::write_all(1, b" none");
        }
    }
    io::write_all(1, b" count");
    print_number(count as u64);
    io::write_all(1, b"\n");
}

// Reads a book, runs it, and prints its lines.
pub fn list() {
    let mut file = [0u8; FILE];
    let size = io::read_full(0, &mut file);
    let mut amounts = [0i32; 512];
    let mut presence = [0u64; 8];
    let mut labels = [0u64; 4096];
    let mut trace = [0u8; TRACE];
    let answer = runner::run(
        &file[..size],
        BUDGET,
        &mut amounts,
        &mut presence,
        &mut labels,
        &mut trace,
    );
    print_run(&trace, answer);
}

// The same, and then the line of its explanation.
pub fn list_explained() {
    let mut file = [0u8; FILE];
    let size = io::read_full(0, &mut file);
    let mut amounts = [0i32; 512];
    let mut presence = [0u64; 8];
    let mut labels = [0u64; 4096];
    let mut trace = [0u8; TRACE];
    let explained = explainer::explain(
        &file[..size],
        BUDGET,
        &mut amounts,
        &mut presence,
        &mut labels,
        &mut trace,
    );
    let answer = explained.answer;
    let place = explained.place;
    print_run(&trace, answer);
    print_explanation(place, explained.count);
}

// Prints a line with the length of a book, and then the book.
fn print_book(book: &[u8], bytes: usize) {
    if bytes == 0 {
        return;
    }
    if book.len() < bytes {
        return;
    }
    io::write_all(1, b"book");
    print_number(bytes as u64);
    io::write_all(1, b"\n");
    io::write_all(1, &book[..bytes]);
}

// Reads a book, runs it, prints its lines, and where the run finished the book that it leaves.
pub fn list_next_day() {
    let mut file = [0u8; FILE];
    let size = io::read_full(0, &mut file);
    let mut amounts = [0i32; 512];
    let mut presence = [0u64; 8];
    let mut labels = [0u64; 4096];
    let mut trace = [0u8; TRACE];
    let mut book = [0u8; BOOK];
    let carried = forward::carry_forward(
        &file[..size],
        BUDGET,
        &mut amounts,
        &mut presence,
        &mut labels,
        &mut trace,
        &mut book,
    );
    let answer = carried.answer;
    print_run(&trace, answer);
    print_book(&book, carried.bytes);
}
