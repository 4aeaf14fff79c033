// The checks of a file's shape: length, mark, sections (refusals 2 to 4).
#![tactic(auto)]

ghost use Rattle.std.specs.Prelude.{◌≡◌, cond, ◌+◌, ◌-◌, ◌*◌, ◌≤◌, ◌<◌, eqb, length};
ghost use Rattle.book.specs.Layout.{remembers};
ghost use Rattle.book.specs.Refusals.{length_fits, marked, mark_fits, sections_fit};

// Refusal 2: whether the file has from 36 to 60,000 bytes, and its length field says how many.
pub fn length_fits(file: &[u8]) -> bool
    ensures { result ≡ length_fits file.now }
{
    let length = file.len();
    if length < 36 {
        return false;
    }
    if 60000 < length {
        return false;
    }
    numbers::u32_at(file, length - 4) as usize == length
}

// Whether the four bytes at `at` are those of `mark`.
fn same4(file: &[u8], at: usize, mark: &[u8; 4]) -> bool
    requires { at + 4 ≤ length file.now }
    ensures { result ≡ marked file.now at mark.now }
{
    if file[at] != mark[0] {
        return false;
    }
    if file[at + 1] != mark[1] {
        return false;
    }
    if file[at + 2] != mark[2] {
        return false;
    }
    file[at + 3] == mark[3]
}

// Refusal 3: whether the trailer opens with the mark, version 1 or 2 and three zero bytes.
pub fn mark_fits(file: &[u8]) -> bool
    requires { 36 ≤ length file.now }
    ensures { result ≡ mark_fits file.now }
{
    let trailer = file.len() - 36;
    if !same4(file, trailer, b"BKWS") {
        return false;
    }
    let version = numbers::byte_at(file, trailer + 4);
    if version < 1 {
        return false;
    }
    if 2 < version {
        return false;
    }
    numbers::u24_at(file, trailer + 5) == 0
}

// How many sections there are: version 2 has a seventh, of label records.
fn section_count(file: &[u8]) -> usize
    requires { 36 ≤ length file.now }
    ensures { result ≡ cond (remembers file.now) 7 6 }
{
    if numbers::byte_at(file, file.len() - 32) == 2 {
        7
    } else {
        6
    }
}

// Where the pair of section `i` stands in a file of `length` bytes: that of the seventh just before the trailer, so that the six others
// stand where version 1 has them.
fn pair_at(length: usize, i: usize) -> usize
    requires { (i < 7) × (36 ≤ length) × (4 * i + 16 ≤ length) }
    ensures { (result ≡ cond (eqb i 6) (length - 40) (length - 36 + 8 + 4 * i)) × (result + 4 ≤ length) }
{
    if i == 6 {
        length - 40
    } else {
        length - 28 + 4 * i
    }
}

// The most records of each section, and the bytes of each record.
const MOST: [usize; 7] = [512, 64, 64, 1024, 8, 8, 512];

const SIZE: [usize; 7] = [8, 8, 4, 16, 4, 8, 66];

// Refusal 4: whether the sections follow one another from byte 0 to what stands behind them, none with more than its most records.
// Behind them are 12 bytes and a pair for each section.
pub fn sections_fit(file: &[u8]) -> bool
    requires { (36 ≤ length file.now) × (length file.now ≤ 60000) }
    ensures { result ≡ sections_fit file.now }
{
    let length = file.len();
    let sections = section_count(file);
    let behind = 12 + 4 * sections;
    if length < behind {
        return false;
    }
    let mut end: usize = 0;
    for pair in 0..sections {
        let at = pair_at(length, pair);
        if numbers::u16_at(file, at) + end != length {
            return false;
        }
        let count = numbers::u16_at(file, at + 2);
        if MOST[pair] < count {
            return false;
        }
        end = end + count * SIZE[pair];
    }
    end + behind == length
}
