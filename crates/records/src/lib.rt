// The checks of cell, region and right records (refusals 5 to 7).
#![tactic(auto)]

ghost use Rattle.std.specs.Prelude.{◌≡◌, ◌&&◌, cond, ◌+◌, ◌≤◌, eqb, leb, length};
ghost use Rattle.book.specs.Records.{cells_format, regions_format, rights_format};
ghost use Rattle.book.specs.Layout.{count, decode};
ghost use Rattle.book.specs.Refusals.{first_bad, Laid, cell_fits, bad_cell, region_fits, bad_region, right_fits, bad_right};

// Whether table, owner and line of the cell record at `at` are 0 to 7, and the byte after them is 0.
fn cell_fits(file: &[u8], at: usize) -> bool
    requires { at + 8 ≤ length file.now }
    ensures { result ≡ cell_fits (cells_format.read file.now at) }
{
    if 7 < numbers::byte_at(file, at) {
        return false;
    }
    if 7 < numbers::byte_at(file, at + 1) {
        return false;
    }
    if 7 < numbers::byte_at(file, at + 2) {
        return false;
    }
    numbers::byte_at(file, at + 3) == 0
}

// Each section has a scan of its own, as records differ in size and in what they have to know of those before.
// Refusal 5: the first bad cell record, if there is one; `least` is the least place that the next record may have.
pub fn first_bad_cell(file: &[u8]) -> Option<usize>
    requires { Laid file.now }
    ensures { result ≡ first_bad (bad_cell (decode file.now).cells) (count file.now 0) }
{
    let cells = book::section_at(file, 0);
    let start = cells.start;
    let count = cells.count;
    let mut least: usize = 0;
    for cell in 0..count {
        let at = start + cell * 8;
        if !cell_fits(file, at) {
            return Some(cell);
        }
        let place = book::place_at(file, at);
        if place < least {
            return Some(cell);
        }
        least = place + 1;
    }
    None
}

// Whether first ≤ last ≤ 7.
fn range_fits(range: regions::Range) -> bool
    ensures { result ≡ leb range.first range.last && leb range.last 7 }
{
    let first = range.first;
    let last = range.last;
    if last < first {
        return false;
    }
    last <= 7
}

// Whether the region record at `at` has a table from 0 to 7, two ranges that fit, and three zero bytes.
fn region_fits(file: &[u8], at: usize) -> bool
    requires { at + 8 ≤ length file.now }
    ensures { result ≡ region_fits (regions_format.read file.now at) }
{
    let region = book::region_at(file, at);
    let table = region.table;
    let owners = region.owners;
    let lines = region.lines;
    if 7 < table {
        return false;
    }
    if !range_fits(owners) {
        return false;
    }
    if !range_fits(lines) {
        return false;
    }
    numbers::u24_at(file, at + 5) == 0
}

// Refusal 6: the first bad region record, if there is one.
pub fn first_bad_region(file: &[u8]) -> Option<usize>
    requires { Laid file.now }
    ensures { result ≡ first_bad (bad_region (decode file.now).regions) (count file.now 1) }
{
    let regions = book::section_at(file, 1);
    let start = regions.start;
    let count = regions.count;
    for region in 0..count {
        if !region_fits(file, start + region * 8) {
            return Some(region);
        }
    }
    None
}

// The highest user that a right of this kind may name: 0 for a public one.
fn last_user(kind: usize) -> usize
    ensures { result ≡ cond (eqb kind 0) 0 7 }
{
    if kind == 0 { 0 } else { 7 }
}

// Whether the right record at `at` has a kind, a user and a region that there are, and a zero byte, in a book of `regions` regions.
fn right_fits(file: &[u8], at: usize, regions: usize) -> bool
    requires { (at + 4 ≤ length file.now) × (regions ≡ count file.now 1) }
    ensures { result ≡ right_fits (decode file.now) (rights_format.read file.now at) }
{
    let kind = numbers::byte_at(file, at);
    if 2 < kind {
        return false;
    }
    if last_user(kind) < numbers::byte_at(file, at + 1) {
        return false;
    }
    if regions <= numbers::byte_at(file, at + 2) {
        return false;
    }
    numbers::byte_at(file, at + 3) == 0
}

// Refusal 7: the first bad right record, if there is one.
pub fn first_bad_right(file: &[u8]) -> Option<usize>
    requires { Laid file.now }
    ensures { result ≡ first_bad (bad_right (decode file.now)) (count file.now 2) }
{
    let regions = book::section_at(file, 1).count;
    let rights = book::section_at(file, 2);
    let start = rights.start;
    let count = rights.count;
    for right in 0..count {
        if !right_fits(file, start + right * 4, regions) {
            return Some(right);
        }
    }
    None
}
