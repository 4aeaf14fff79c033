// Writing: makes a new file of a book with the cells and labels of lent memory for its own.
#![tactic(auto)]

ghost use Rattle.std.specs.Prelude.{◌≡◌, ◌++◌, ◌≤◌, length, drop, Ok};
ghost use Rattle.book.specs.Refusals.{verdict};
ghost use Rattle.writer.specs.Write.{rewritten, write_call};

use book::{Reason, Refusal};

// Writes the book with its cells and labels replaced and answers its length; later bytes stay. The sections between are copied.
fn write_book(
    file: &[u8],
    amounts: &[i32],
    presence: &[u64],
    labels: &[u64],
    out: &mut [u8],
) -> usize
    requires { (verdict file.now ≡ Ok tt) × (length amounts.now ≡ 512) × (length presence.now ≡ 8) × (length labels.now ≡ 4096) × (60000 ≤ length out.old) }
    ensures { (result ≡ length (rewritten file.now amounts.now presence.now labels.now))
        × (out.new ≡ rewritten file.now amounts.now presence.now labels.now ++ drop result out.old) }
{
    let mut set = [0u64; 8];
    set.copy_from_slice(presence);
    let cells = encoder::write_cells(amounts, set, out);
    let regions = book::section_at(file, 1);
    let old_labels = book::label_section(file);
    let size = old_labels.start - regions.start;
    encoder::copy_part(file, regions.start, size, out, cells);
    let start = cells + size;
    let end = encoder::write_labels(labels, out, start);
    encoder::write_tail(file, out, end, cells / 8, (end - start) / 66);
    let whole = end + 40;
    whole
}

// Writes the book in a file with the cells and labels of lent memory for its own, as version 2, and answers its length; or refuses and leaves
// the output as it was.
pub fn write(
    file: &[u8],
    amounts: &[i32],
    presence: &[u64],
    labels: &[u64],
    out: &mut [u8],
) -> Result<usize, Refusal>
    ensures { record { answer = result; out = out.new }
        ≡ write_call file.now amounts.now presence.now labels.now out.old }
{
    book::need(Reason::Lent, loader::lent_fits(amounts, presence, labels))?;
    book::need(Reason::Lent, 60000 <= out.len())?;
    reader::inspect(file)?;
    Ok(write_book(file, amounts, presence, labels, out))
}
