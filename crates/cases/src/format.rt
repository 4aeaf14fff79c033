// A case for the loader and the writer. The cells to write are drawn from the seed, and by the task their labels too. Its line: the loader's number and index (0 0
// if it accepted); digests of amounts, presence, labels and rights; the writer's number and index (0 and the length if it
// wrote); the digest of the output.

use machine::{Right, Script};

// The digest of a sequence and the sets of all users.
fn mixed_sets(digest: u32, sets: [[u64; 8]; 8]) -> u32 {
    sets.iter()
        .fold(digest, |sum, set| case_lines::mixed_words(sum, set))
}

// The digest of a book's rights: the public set, the read sets of all users, their write sets; 0 of a refused file.
fn digest_of_rights(file: &[u8]) -> u32 {
    match reader::inspect(file) {
        Ok(()) => {
            let mut bytes = [0u8; machine::SCRIPT_BYTES];
            start::copy_script(file, &mut bytes);
            let script = Script { bytes: &bytes };
            let public = rights::public_set(script);
            let read = rights::right_sets(script, Right::Read.number());
            let write = rights::right_sets(script, Right::Write.number());
            mixed_sets(mixed_sets(case_lines::mixed_words(1, &public), read), write)
        }
        Err(_) => 0,
    }
}

// Prints the number and the index of a refusal.
fn print_refusal(refusal: book::Refusal) {
    case_lines::print(refusal.reason.number() as usize);
    case_lines::print(refusal.index);
}

// Loads the file; prints the answer and the digests of the lent memory and the rights.
fn load(file: &[u8], amounts: &mut [i32], presence: &mut [u64], labels: &mut [u64]) {
    let mut rights: u32 = 0;
    match loader::load(file, amounts, presence, labels) {
        Ok(()) => {
            io::write_all(1, b"0 0 ");
            rights = digest_of_rights(file);
        }
        Err(refusal) => print_refusal(refusal),
    }
    case_lines::print_cells(amounts, presence, labels);
    case_lines::print(rights as usize);
}

// Writes the file with these cells and labels; prints the answer and the digest of the output.
fn write(file: &[u8], amounts: &[i32], presence: &[u64], labels: &[u64], out: &mut [u8]) {
    match writer::write(file, amounts, presence, labels, out) {
        Ok(length) => {
            io::write_all(1, b"0 ");
            case_lines::print(length);
        }
        Err(refusal) => print_refusal(refusal),
    }
    case_lines::print_last(out);
}

// Draws the cells to write, and the labels by the task: 2 draws every word, 3 some labels; at seed 0 all stays as it is.
fn draw(task: usize, amounts: &mut [i32], presence: &mut [u64], labels: &mut [u64], seed: u32) {
    if seed == 0 {
        return;
    }
    let after_amounts = case_lines::draw_amounts(amounts, seed);
    let after_presence = case_lines::draw_words(presence, after_amounts);
    match task {
        2 => {
            case_lines::draw_words(labels, after_presence);
        }
        3 => case_lines::draw_labels(labels, after_presence),
        _ => {}
    }
}

// Fills all that is lent, so that what is left alone shows.
fn fill(amounts: &mut [i32], presence: &mut [u64], labels: &mut [u64], out: &mut [u8]) {
    amounts.fill(7);
    presence.fill(5);
    labels.fill(3);
    out.fill(165);
}

// Does a case and prints its line.
pub fn case(
    task: usize,
    file: &[u8],
    amounts: &mut [i32],
    presence: &mut [u64],
    labels: &mut [u64],
    out: &mut [u8],
    seed: u32,
) {
    fill(amounts, presence, labels, out);
    load(file, amounts, presence, labels);
    draw(task, amounts, presence, labels, seed);
    write(file, amounts, presence, labels, out);
}
