// The parts of a written book, each stored into lent output: cell records, label records, what stands behind them, and numbers and copied
// bytes, which fill a script too.
#![tactic(auto)]

ghost use Rattle.std.specs.Prelude.{◌≡◌, ◌++◌, ◌+◌, ◌≤◌, ◌<◌, length, take, drop};
ghost use Rattle.book.specs.Bytes.{two, four, eight};
ghost use Rattle.book.specs.Records.{section_bytes, cells_format, labels_format};
ghost use Rattle.book.specs.Encode.{cell_record, cells_from, label_record, labels_from, distance_to_end, pairs};
ghost use Rattle.encoder.specs.Steps.{six_like, tail_with};

// Writes a number of 16 bits, lowest byte first; the other bytes stay.
pub fn put_u16(out: &mut [u8], at: usize, number: usize)
    requires { at + 2 ≤ length out.old }
    ensures { out.new ≡ take at out.old ++ two number ++ drop (at + 2) out.old }
{
    out[at] = (number % 256) as u8;
    out[at + 1] = (number / 256 % 256) as u8;
}

// Writes a number of 32 bits, lowest byte first; the other bytes stay.
pub fn put_u32(out: &mut [u8], at: usize, bits: u32)
    requires { at + 4 ≤ length out.old }
    ensures { out.new ≡ take at out.old ++ four bits ++ drop (at + 4) out.old }
{
    out[at] = (bits % 256) as u8;
    out[at + 1] = (bits / 256 % 256) as u8;
    out[at + 2] = (bits / 65536 % 256) as u8;
    out[at + 3] = (bits / 16777216 % 256) as u8;
}

// Writes a number of 64 bits, lowest byte first; the other bytes stay.
fn put_u64(out: &mut [u8], at: usize, bits: u64)
    requires { at + 8 ≤ length out.old }
    ensures { out.new ≡ take at out.old ++ eight bits ++ drop (at + 8) out.old }
{
    put_u32(out, at, (bits % 4294967296) as u32);
    put_u32(out, at + 4, (bits / 4294967296) as u32);
}

// Writes the record of a present cell; the other bytes stay.
fn put_cell(out: &mut [u8], at: usize, place: usize, amount: i32)
    requires { (at + 8 ≤ length out.old) × (place < 512) }
    ensures { out.new ≡ take at out.old ++ cells_format.write (cell_record place amount) ++ drop (at + 8) out.old }
{
    out[at] = (place / 64) as u8;
    out[at + 1] = (place / 8 % 8) as u8;
    out[at + 2] = (place % 8) as u8;
    out[at + 3] = 0;
    let bits = numbers::bits_of(amount);
    put_u32(out, at + 4, bits);
}

// Copies `count` bytes of `source` from `from` on to `at`; the other bytes stay. Byte by byte: std's copy of a slice would have the library for C
// ask its caller for `memmove`.
pub fn copy_part(source: &[u8], from: usize, count: usize, out: &mut [u8], at: usize)
    requires { (from + count ≤ length source.now) × (at + count ≤ length out.old) }
    ensures { out.new ≡ take at out.old ++ take count (drop from source.now) ++ drop (at + count) out.old }
{
    for copied in 0..count {
        out[at + copied] = source[from + copied];
    }
}

// Writes the records of the present cells from byte 0 on, places rising; answers how many bytes that is. Later bytes stay. The bit is tested
// here: a call would copy the set for each place.
pub fn write_cells(amounts: &[i32], presence: [u64; 8], out: &mut [u8]) -> usize
    requires { (length amounts.now ≡ 512) × (4096 ≤ length out.old) }
    ensures { (result ≡ length (section_bytes cells_format (cells_from amounts.now presence 512 0)))
        × (out.new ≡ section_bytes cells_format (cells_from amounts.now presence 512 0) ++ drop result out.old) × (result ≤ 4096) }
{
    let mut end: usize = 0;
    for place in 0..512 {
        let word = presence[place / 64];
        if (word >> (place % 64)) % 2 == 1 {
            put_cell(out, end, place, amounts[place]);
            end += 8;
        }
    }
    end
}

// Writes the label record of a cell; the other bytes stay.
fn put_label(labels: &[u64], place: usize, out: &mut [u8], at: usize)
    requires { (place < 512) × (length labels.now ≡ 4096) × (at + 66 ≤ length out.old) }
    ensures { out.new ≡ take at out.old ++ labels_format.write (label_record labels.now place) ++ drop (at + 66) out.old }
{
    put_u16(out, at, place);
    for word in 0..8 {
        put_u64(out, at + 2 + 8 * word, labels[8 * place + word]);
    }
}

// Writes from byte `at` on the records of the labels that are not their own place alone, places rising; answers the byte behind them.
// The other bytes stay.
pub fn write_labels(labels: &[u64], out: &mut [u8], at: usize) -> usize
    requires { (length labels.now ≡ 4096) × (at + 33792 ≤ length out.old) }
    ensures { (result ≡ at + length (section_bytes labels_format (labels_from labels.now 512 0)))
        × (out.new ≡ take at out.old ++ section_bytes labels_format (labels_from labels.now 512 0) ++ drop result out.old)
        × (result ≤ at + 33792) }
{
    let mut end = at;
    for cell in 0..512 {
        if !labels::is_own(labels, cell) {
            put_label(labels, cell, out, end);
            end += 66;
        }
    }
    end
}

// Writes the pair of a section; the other bytes stay.
fn put_pair(out: &mut [u8], at: usize, distance: usize, count: usize)
    requires { at + 4 ≤ length out.old }
    ensures { out.new ≡ take at out.old ++ (two distance ++ two count) ++ drop (at + 4) out.old }
{
    put_u16(out, at, distance);
    put_u16(out, at + 2, count);
}

// The bytes of a record, from the section of the cells to that of the triggers.
const SIZE: [usize; 6] = [8, 8, 4, 16, 4, 8];

// Writes the pairs of the sections from the cells to the triggers, where `behind` bytes follow these; answers the length of the book. The
// last pair is written first: a section's distance from the end is made of the sections behind it.
fn put_pairs(file: &[u8], out: &mut [u8], at: usize, cells: usize, behind: usize) -> usize
    requires { (36 ≤ length file.now) × (at + 24 ≤ length out.old) × (cells ≤ 512) × (behind ≤ 60000) }
    ensures { (result ≡ distance_to_end behind (six_like file.now cells))
        × (out.new ≡ take at out.old ++ pairs behind (six_like file.now cells) ++ drop (at + 24) out.old)
        × (result ≤ 22000000) }
{
    let counts = file.len() - 26;
    let mut distance = behind;
    for section in (1..6).rev() {
        let count = numbers::u16_at(file, counts + 4 * section);
        distance += count * SIZE[section];
        put_pair(out, at + 4 * section, distance, count);
    }
    let whole = distance + cells * 8;
    put_pair(out, at, whole, cells);
    whole
}

// Writes from byte `at` on what stands behind the label records of a book with `cells` cells and `labels` label records: their pair, the
// mark, version 2, the other pairs and the length. The other bytes stay; the other counts are those of the file.
pub fn write_tail(file: &[u8], out: &mut [u8], at: usize, cells: usize, labels: usize)
    requires { (36 ≤ length file.now) × (at + 40 ≤ length out.old) × (cells ≤ 512) × (labels ≤ 512) }
    ensures { out.new ≡ take at out.old ++ tail_with (six_like file.now cells) labels ++ drop (at + 40) out.old }
{
    let behind = labels * 66 + 40;
    put_pair(out, at, behind, labels);
    copy_part(b"BKWS\x02\x00\x00\x00", 0, 8, out, at + 4);
    let whole = put_pairs(file, out, at + 12, cells, behind);
    put_u32(out, at + 36, whole as u32);
}
