// A book file: its sections, places and regions; what the checks of the crates above answer.
#![tactic(auto)]

ghost use Rattle.std.specs.Prelude.{◌≡◌, ◌+◌, ◌≤◌, ◌<◌, length};
ghost use Rattle.book.specs.Records.{place_of, region_of, cells_format, regions_format};
ghost use Rattle.book.specs.Layout.{distance, section, label_section};
ghost use Rattle.book.specs.Refusals.{number_of, need, refused_at, Laid};

// A section of the file: the first byte, and the number of records.
#[derive(Clone, Copy)]
pub struct Section {
    pub start: usize,
    pub count: usize,
}

// A kind of node: what entering it costs, its sort, and the roles of its fields.
#[derive(Clone, Copy)]
pub struct Row {
    pub cost: u8,
    pub sort: u8,
    pub p: u8,
    pub a: u8,
    pub b: u8,
    pub c: u8,
    pub d: u8,
    pub k: u8,
}

// Why a file or a call is refused. The paper's number of each reason is its discriminant.
#[derive(Clone, Copy, PartialEq, Eq, Debug)]
pub enum Reason {
    Lent = 1,
    Length = 2,
    Mark = 3,
    Sections = 4,
    Cell = 5,
    Region = 6,
    Right = 7,
    Node = 8,
    Program = 9,
    Trigger = 10,
    Label = 32,
}

impl Reason {
    // The paper's number.
    pub fn number(self) -> u32
        ensures { result ≡ number_of self }
    {
        self as u32
    }
}

// A refusal: why, and the index of the first bad record, 0 where it is about no record.
#[derive(Clone, Copy, PartialEq, Eq, Debug)]
pub struct Refusal {
    pub reason: Reason,
    pub index: usize,
}

// Refuses unless the test holds.
#[tactic(auto, unfolding(crate::specs::Refusals::need))]
pub fn need(reason: Reason, test: bool) -> Result<(), Refusal>
    ensures { result ≡ need reason test }
{
    if test {
        return Ok(());
    }
    Err(Refusal { reason, index: 0 })
}

// Refuses for the first bad record of a section, where one was found.
pub fn blame(reason: Reason, found: Option<usize>) -> Result<(), Refusal>
    ensures { result ≡ refused_at reason found }
{
    match found {
        Some(index) => Err(Refusal { reason, index }),
        None => Ok(()),
    }
}

// Section `i`, as the trailer gives it.
pub fn section_at(file: &[u8], i: usize) -> Section
    requires { (i < 6) × (36 ≤ length file.now) × (distance file.now i ≤ length file.now) }
    ensures { result ≡ section file.now i }
{
    let end = file.len();
    let pair = end - 28 + 4 * i;
    let distance = numbers::u16_at(file, pair);
    let count = numbers::u16_at(file, pair + 2);
    Section {
        start: end - distance,
        count,
    }
}

// The section of label records, whose pair stands just before the trailer; a file of version 1 has none.
pub fn label_section(file: &[u8]) -> Section
    requires { Laid file.now }
    ensures { result ≡ label_section file.now }
{
    let end = file.len();
    if numbers::byte_at(file, end - 32) != 2 {
        return Section {
            start: end - 36,
            count: 0,
        };
    }
    let back = numbers::u16_at(file, end - 40);
    let records = numbers::u16_at(file, end - 38);
    Section {
        start: end - back,
        count: records,
    }
}

// The place of the cell record at `at`.
pub fn place_at(file: &[u8], at: usize) -> usize
    requires { at + 8 ≤ length file.now }
    ensures { (result ≡ place_of (cells_format.read file.now at)) × (result < 65536) }
{
    64 * numbers::byte_at(file, at)
        + 8 * numbers::byte_at(file, at + 1)
        + numbers::byte_at(file, at + 2)
}

// The region that the record at `at` describes.
pub fn region_at(file: &[u8], at: usize) -> regions::Region
    requires { at + 8 ≤ length file.now }
    ensures { result ≡ region_of (regions_format.read file.now at) }
{
    let table = numbers::byte_at(file, at);
    let owners = regions::Range {
        first: numbers::byte_at(file, at + 1),
        last: numbers::byte_at(file, at + 2),
    };
    let lines = regions::Range {
        first: numbers::byte_at(file, at + 3),
        last: numbers::byte_at(file, at + 4),
    };
    regions::Region {
        table,
        owners,
        lines,
    }
}
