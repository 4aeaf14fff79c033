// Compares pairs of sets from standard input, and prints a line for each: whether the first lies within the second, and how many words were
// looked at. The pairs and the lines to expect are made by the reference.
//
// A pair is 128 bytes: the eight words of the first set and the eight of the second, lowest byte first.
#![tactic(auto)]

ghost use Rattle.std.specs.Prelude.{◌+◌, ◌≤◌, length};

// The set in the 64 bytes at `at`.
fn set_at(bytes: &[u8], at: usize) -> [u64; 8]
    requires { at + 64 ≤ length bytes.now }
{
    let mut set = [0u64; 8];
    for word in 0..8 {
        set[word] = numbers::u64_at(bytes, at + 8 * word);
    }
    set
}

// Prints the line of a comparison.
fn print(compared: places::Comparison) {
    if compared.inside {
        io::write_all(1, b"inside ");
    } else {
        io::write_all(1, b"outside ");
    }
    io::print_decimal(1, compared.words as u64);
    io::write_all(1, b"\n");
}

// Reads a pair and prints its line; answers whether there was one.
fn step() -> bool {
    let mut pair = [0u8; 128];
    if !case_lines::read(&mut pair) {
        return false;
    }
    let first = set_at(&pair, 0);
    let second = set_at(&pair, 64);
    print(places::within(first, second));
    true
}

// Compares the pairs one after another, up to a million.
fn main() {
    for _ in 0..1000000 {
        if !step() {
            return;
        }
    }
}
