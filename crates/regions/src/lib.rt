// Regions, and their sets of places: a word for each table, with a row of eight bits, one for each line, for each owner.
#![tactic(auto)]

ghost use Rattle.std.specs.Prelude.{◌≡◌, ◌^◌, ◌<◌, ◌≤◌};
ghost use Rattle.regions.specs.Regions.{in_range, in_region, region_set, repeated};

// The numbers from `first` to `last`, both included; none where first is above last.
#[derive(Clone, Copy)]
pub struct Range {
    pub first: usize,
    pub last: usize,
}

impl Range {
    // Whether the range holds `number`.
    fn contains(self, number: usize) -> bool
        ensures { result ≡ in_range self number }
    {
        self.first <= number && number <= self.last
    }
}

// A region: a table with a range of owners and a range of lines.
#[derive(Clone, Copy)]
pub struct Region {
    pub table: usize,
    pub owners: Range,
    pub lines: Range,
}

// `pattern` once in every `width` bits, at those of the eight positions that lie in the range.
fn repeated(pattern: u64, width: usize, range: Range) -> u64
    requires { (pattern < 2 ^ width) × (width ≤ 8) }
    ensures { result ≡ repeated pattern width range 8 }
{
    let mut word: u64 = 0;
    for position in 0..8 {
        if range.contains(position) {
            word += pattern << (width * position);
        }
    }
    word
}

// The places of a region: a row with the bits of its lines, once for each of its owners.
pub fn region_set(region: Region) -> [u64; 8]
    requires { region.table < 8 }
    ensures { result ≡ region_set 8 region }
{
    let row = repeated(1, 1, region.lines);
    let mut set = [0u64; 8];
    set[region.table] = repeated(row, 8, region.owners);
    set
}

// Whether a region holds `place`, with no set made for it.
pub fn holds(region: Region, place: usize) -> bool
    ensures { result ≡ in_region region place }
{
    place / 64 == region.table
        && region.owners.contains(place / 8 % 8)
        && region.lines.contains(place % 8)
}
