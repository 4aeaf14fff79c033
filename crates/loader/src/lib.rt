// Loading: sets lent memory to the start state of a book.
#![tactic(auto)]

ghost use Rattle.std.specs.Prelude.{◌≡◌, length, Ok};
ghost use Rattle.book.specs.Layout.{decode};
ghost use Rattle.book.specs.Refusals.{verdict};
ghost use Rattle.book.specs.Start.{start_amounts, start_presence, start_labels};
ghost use Rattle.loader.specs.Load.{lent_fits, load_call};

use book::{Reason, Refusal};

// Sets the amounts of a book's cells, from the last record to the first, and 0 elsewhere; answers the places of the cells.
pub fn load_cells(file: &[u8], amounts: &mut [i32]) -> [u64; 8]
    requires { (verdict file.now ≡ Ok tt) × (length amounts.old ≡ 512) }
    ensures { (amounts.new ≡ start_amounts (decode file.now)) × (result ≡ start_presence (decode file.now)) }
{
    amounts.fill(0);
    let cells = book::section_at(file, 0);
    let start = cells.start;
    let mut set = [0u64; 8];
    for cell in (0..cells.count).rev() {
        let at = start + cell * 8;
        let place = book::place_at(file, at);
        amounts[place] = numbers::i32_at(file, at + 4);
        set[place / 64] = (1u64 << (place % 64)) | set[place / 64];
    }
    set
}

// Makes the label of each cell the one that the book has for it, from the last record to the first, and its own place alone elsewhere.
fn load_labels(file: &[u8], labels: &mut [u64])
    requires { (verdict file.now ≡ Ok tt) × (length labels.old ≡ 4096) }
    ensures { labels.new ≡ start_labels (decode file.now) }
{
    labels::own_labels(labels);
    let section = book::label_section(file);
    let start = section.start;
    for label in (0..section.count).rev() {
        let at = start + label * 66;
        let place = label_records::place_at(file, at);
        labels::set_label(labels, place, label_records::label_at(file, at));
    }
}

// Whether lent memory for cells has 512 amounts, 8 presence words and 4,096 label words.
pub fn lent_fits(amounts: &[i32], presence: &[u64], labels: &[u64]) -> bool
    ensures { result ≡ lent_fits amounts.now presence.now labels.now }
{
    amounts.len() == 512 && presence.len() == 8 && labels.len() == 4096
}

// Sets lent memory to the start state of the book in a file, or refuses and leaves it as it was.
pub fn load(
    file: &[u8],
    amounts: &mut [i32],
    presence: &mut [u64],
    labels: &mut [u64],
) -> Result<(), Refusal>
    ensures { record { answer = result; amounts = amounts.new; presence = presence.new; labels = labels.new }
        ≡ load_call file.now amounts.old presence.old labels.old }
{
    book::need(Reason::Lent, lent_fits(amounts, presence, labels))?;
    reader::inspect(file)?;
    let set = load_cells(file, amounts);
    memory::copy(&set, presence);
    load_labels(file, labels);
    Ok(())
}
