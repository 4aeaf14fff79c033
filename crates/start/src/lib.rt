// The memory of a run at its start: the script and the sets of an accepted book.
#![tactic(auto)]

ghost use Rattle.std.specs.Prelude.{◌≡◌, true, ℕ, ◌+◌, ◌*◌, ◌<◌, ◌≤◌, length, replicate, Ok};
ghost use Rattle.places.specs.Sets.{empty, single};
ghost use Rattle.book.specs.Layout.{count, section, decode};
ghost use Rattle.book.specs.Refusals.{verdict};
ghost use Rattle.book.specs.Start.{remembered};
ghost use Rattle.monitor.specs.Call.{script};
ghost use Rattle.machine.specs.Script.{prices_start, counts_start, script_bytes, script_of, Runnable};
ghost use Rattle.machine.specs.Store.{row_at, idle};
ghost use Rattle.start.specs.Start.{Stays, Part, Prices, Counts, SetsOf};

use machine::{Right, Script, Sets};

// Copies the records of section `i` of a book to byte `at`; the bytes before stay.
fn copy_section(file: &[u8], i: usize, size: usize, at: usize, code: &mut [u8])
    requires { (verdict file.now ≡ Ok tt) × (i < 6) × ((section file.now i).start + size * count file.now i ≤ length file.now)
        × (at + size * count file.now i ≤ length code.old) }
    ensures { Stays at code.old code.new × Part file.now i size at code.new }
{
    let section = book::section_at(file, i);
    encoder::copy_part(file, section.start, size * section.count, code, at);
}

// Writes the price of each kind; the bytes before stay.
fn set_prices(code: &mut [u8])
    requires { length code.old ≡ script_bytes }
    ensures { Stays prices_start code.old code.new × Prices code.new }
{
    let costs = kinds::costs();
    for kind in 0..27 {
        encoder::put_u32(code, machine::PRICES + 4 * kind, costs[kind]);
    }
}

// Writes how many records each section has; the bytes before stay.
fn copy_counts(file: &[u8], code: &mut [u8])
    requires { (verdict file.now ≡ Ok tt) × (length code.old ≡ script_bytes) }
    ensures { Stays counts_start code.old code.new × Counts file.now code.new }
{
    for i in 0..5 {
        let section = book::section_at(file, i + 1);
        encoder::put_u16(code, machine::COUNTS + 2 * i, section.count);
    }
}

// Fills the script of an accepted book, each part behind those that are filled.
pub fn copy_script(file: &[u8], code: &mut [u8; machine::SCRIPT_BYTES])
    requires { verdict file.now ≡ Ok tt }
    ensures { Runnable code.new × (script_of code.new ≡ script (decode file.now)) }
{
    copy_section(file, 3, 16, 0, code);
    set_prices(code);
    copy_section(file, 1, 8, machine::REGIONS, code);
    copy_section(file, 2, 4, machine::RIGHTS, code);
    copy_section(file, 4, 4, machine::PROGRAMS, code);
    copy_section(file, 5, 8, machine::TRIGGERS, code);
    copy_counts(file, code);
}

// Makes each cell's label its own place alone: one bit in words that are all 0.
fn own_labels(labels: &mut [[u64; 8]])
    requires { labels.old ≡ replicate 512 (empty 8) }
    ensures { (place : ℕ) → place < 512 → row_at labels.new place ≡ single 8 place }
{
    for place in 0..512 {
        labels[place][place / 64] = 1u64 << (place % 64);
    }
}

// Makes each cell's label the one that the book has for it, from the last record to the first, and its own place alone elsewhere.
fn start_labels(file: &[u8], labels: &mut [[u64; 8]])
    requires { (verdict file.now ≡ Ok tt) × (labels.old ≡ replicate 512 (empty 8)) }
    ensures { (place : ℕ) → place < 512 → row_at labels.new place ≡ remembered (decode file.now).labels place }
{
    own_labels(labels);
    let section = book::label_section(file);
    let start = section.start;
    for label in (0..section.count).rev() {
        let at = start + label * 66;
        let place = label_records::place_at(file, at);
        labels[place] = label_records::label_at(file, at);
    }
}

// Fills the sets of a book's script whose cells are present at these places. The labels are lent empty, with no posting under way.
pub fn start_sets(file: &[u8], script: Script, present: [u64; 8], sets: &mut Sets)
    requires { (verdict file.now ≡ Ok tt) × (sets.old.labels ≡ replicate 512 (empty 8)) × (idle sets.old ≡ true) }
    ensures { SetsOf (script_of script.entry.bytes.now) (decode file.now).labels present sets.new }
{
    start_labels(file, &mut sets.labels);
    sets.present = present;
    sets.public = rights::public_set(script);
    machine::store_users(
        sets,
        Right::Read,
        rights::right_sets(script, Right::Read.number()),
    );
    machine::store_users(
        sets,
        Right::Write,
        rights::right_sets(script, Right::Write.number()),
    );
}
