// What the programs that read cases and print a line for each have in common: reading, numbers drawn from a seed, digests, and
// printing.
#![tactic(auto)]

ghost use Rattle.std.specs.Prelude.{◌+◌, ◌*◌, ◌≤◌, ◌<◌, length};

// Reads from standard input until all bytes are filled; answers whether there were enough.
pub fn read(bytes: &mut [u8]) -> bool {
    let got = io::read_full(0, bytes);
    got == bytes.len()
}

// The number drawn after another.
fn drawn(number: u32) -> u32
    ensures { result < 2147483648 }
{
    ((number as u64 * 1103515245 + 12345) % 2147483648) as u32
}

// The amount of a place for the number drawn: at every second place it is negative.
fn amount_of(number: u32, place: usize) -> i32
    requires { number < 2147483648 }
{
    if place % 2 == 0 {
        return number as i32;
    }
    0 - (number as i32)
}

// Draws amounts; answers the last number drawn. The three that draw differ in how many numbers an element takes and in what it makes of them, so
// that one function would take that as an argument and be no shorter.
pub fn draw_amounts(amounts: &mut [i32], seed: u32) -> u32 {
    let mut last = seed;
    for (place, amount) in amounts.iter_mut().enumerate() {
        last = drawn(last);
        *amount = amount_of(last, place);
    }
    last
}

// Draws words of two numbers each; answers the last number drawn.
pub fn draw_words(words: &mut [u64], seed: u32) -> u32 {
    let mut last = seed;
    for word in words {
        let high = drawn(last);
        last = drawn(high);
        *word = high as u64 * 8589934592 + last as u64 * 2;
    }
    last
}

// Sets one place in a label.
fn join_place(label: &mut [u64; 8], member: usize)
    requires { member < 512 }
{
    label[member / 64] |= 1u64 << (member % 64);
}

// Draws what becomes of the label of a place; answers the last number drawn. Half of them stay; others become empty, their own place alone,
// or have a place more.
fn draw_label(label: &mut [u64; 8], place: usize, seed: u32) -> u32 {
    let last = drawn(seed);
    let choice = last / 65536 % 8;
    if choice < 4 {
        return last;
    }
    if choice < 6 {
        label.fill(0);
        return last;
    }
    if choice == 7 {
        let more = drawn(last);
        join_place(label, (more / 65536 % 512) as usize);
        return more;
    }
    if place < 512 {
        label.fill(0);
        join_place(label, place);
    }
    last
}

// Draws what becomes of each label.
pub fn draw_labels(labels: &mut [u64], seed: u32) {
    let (whole, _) = labels.as_chunks_mut::<8>();
    let mut last = seed;
    for (place, label) in whole.iter_mut().enumerate() {
        last = draw_label(label, place, last);
    }
}

// Draws bytes, of one number each, from its middle.
pub fn draw_bytes(bytes: &mut [u8], seed: u32) {
    let mut last = seed;
    for byte in bytes {
        last = drawn(last);
        *byte = (last / 65536 % 256) as u8;
    }
}

// The digest of a sequence and one more number.
fn mixed(digest: u32, number: u32) -> u32 {
    ((digest as u64 * 16777619 + number as u64) % 4294967291) as u32
}

// The digest of a sequence and one more word: its low half, then its high half.
fn mixed_word(digest: u32, word: u64) -> u32 {
    let low = (word % 4294967296) as u32;
    let high = (word / 4294967296) as u32;
    mixed(mixed(digest, low), high)
}

// The digest of a sequence and more words.
pub fn mixed_words(digest: u32, words: &[u64]) -> u32 {
    words
        .iter()
        .fold(digest, |sum, word| mixed_word(sum, *word))
}

// The digest of amounts, by their bits.
fn digest_of_amounts(amounts: &[i32]) -> u32 {
    amounts
        .iter()
        .fold(1, |sum, amount| mixed(sum, numbers::bits_of(*amount)))
}

// The digest of bytes.
fn digest_of_bytes(bytes: &[u8]) -> u32 {
    bytes.iter().fold(1, |sum, byte| mixed(sum, *byte as u32))
}

// Prints a number and a space.
pub fn print(number: usize) {
    io::print_decimal(1, number as u64);
    io::write_all(1, b" ");
}

// Prints the digests of cells: amounts, presence and labels.
pub fn print_cells(amounts: &[i32], presence: &[u64], labels: &[u64]) {
    print(digest_of_amounts(amounts) as usize);
    print(mixed_words(1, presence) as usize);
    print(mixed_words(1, labels) as usize);
}

// Prints the digest of bytes, with more to follow on the line.
pub fn print_bytes(bytes: &[u8]) {
    print(digest_of_bytes(bytes) as usize);
}

// Prints the digest of bytes, the last of a line.
pub fn print_last(bytes: &[u8]) {
    io::print_decimal(1, digest_of_bytes(bytes) as u64);
    io::write_all(1, b"\n");
}
