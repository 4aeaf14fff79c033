// Reads cases from standard input, and prints what each comes to, a line a case. The cases and the lines to expect are made by
// the reference.
//
// A case is a header of 24 bytes and a file. The header, lowest byte first: the file's length, the budget and the length of the
// lent bytes (4 bytes each), the lengths of the lent amounts, presence and labels (2 each), the task (2), and a seed (4). The
// task is 0 to run the file, and otherwise to load it and write it: with 2 and 3 the labels to write are drawn too.
#![tactic(auto)]

ghost use Rattle.std.specs.Prelude.{true, ◌≡◌, length};
ghost use Rattle.cases.specs.Header.{Lendable};

mod format;
mod run;

// Does a case by its task.
fn case(
    header: &[u8],
    file: &[u8],
    amounts: &mut [i32],
    presence: &mut [u64],
    labels: &mut [u64],
    bytes: &mut [u8],
)
    requires { length header.now ≡ 24 }
{
    let budget = numbers::u32_at(header, 4);
    let task = numbers::u16_at(header, 18);
    let seed = numbers::u32_at(header, 20);
    if task == 0 {
        run::case(file, budget, amounts, presence, labels, bytes, seed);
    } else {
        format::case(task, file, amounts, presence, labels, bytes, seed);
    }
}

// Whether the buffers are long enough for the case of a header.
fn fits(header: &[u8]) -> bool
    requires { length header.now ≡ 24 }
    ensures { result ≡ true → Lendable header.now }
{
    if 60016 < numbers::u32_at(header, 0) {
        return false;
    }
    if 65544 < numbers::u32_at(header, 8) {
        return false;
    }
    if 520 < numbers::u16_at(header, 12) {
        return false;
    }
    if 16 < numbers::u16_at(header, 14) {
        return false;
    }
    numbers::u16_at(header, 16) <= 4104
}

// Reads a header and its file; answers whether there were both and they fit the buffers.
fn read(header: &mut [u8], file: &mut [u8]) -> bool
    requires { (length header.old ≡ 24) × (length file.old ≡ 60016) }
    ensures { result ≡ true → Lendable header.new }
{
    if !case_lines::read(header) {
        return false;
    }
    if !fits(header) {
        return false;
    }
    let size = numbers::u32_at(header, 0) as usize;
    case_lines::read(&mut file[0..size])
}

// Does a case in as much of the buffers as its header says.
fn case_in(
    header: &[u8],
    file: &[u8],
    amounts: &mut [i32],
    presence: &mut [u64],
    labels: &mut [u64],
    bytes: &mut [u8],
)
    requires { (length header.now ≡ 24) × Lendable header.now × (length file.now ≡ 60016) × (length amounts.old ≡ 520) × (length presence.old ≡ 16) × (length labels.old ≡ 4104) × (length bytes.old ≡ 65544) }
{
    let size = numbers::u32_at(header, 0) as usize;
    let byte_count = numbers::u32_at(header, 8) as usize;
    let amount_count = numbers::u16_at(header, 12);
    let presence_count = numbers::u16_at(header, 14);
    let label_count = numbers::u16_at(header, 16);
    case(
        header,
        &file[0..size],
        &mut amounts[0..amount_count],
        &mut presence[0..presence_count],
        &mut labels[0..label_count],
        &mut bytes[0..byte_count],
    );
}

// Reads a case and does it; answers whether there was one that fits the buffers.
fn step() -> bool {
    let mut header = [0u8; 24];
    let mut file = [0u8; 60016];
    if !read(&mut header, &mut file) {
        return false;
    }
    let mut amounts = [0i32; 520];
    let mut presence = [0u64; 16];
    let mut labels = [0u64; 4104];
    let mut bytes = [0u8; 65544];
    case_in(
        &header,
        &file,
        &mut amounts,
        &mut presence,
        &mut labels,
        &mut bytes,
    );
    true
}

// Does the cases one after another, up to a million.
fn main() {
    for _ in 0..1000000 {
        if !step() {
            return;
        }
    }
}
