// The memory of a run: the script, the sets, the numbers, the variables, and all of them together.

ghost use Rattle.std.specs.Prelude.{◌≤◌, length};
ghost use Rattle.machine.specs.Script.{Runnable};

// The book that is run, without its cells: each section at a place of its own, with room for its most records. The nodes are at 0.
#[derive(Clone, Copy)]
pub struct Script<'a> {
    pub bytes: &'a [u8; SCRIPT_BYTES],
    ghost runnable: { Runnable bytes.now },
}

// What it costs to enter a node of each kind, four bytes each: behind the nodes.
pub const PRICES: usize = 16 * 1024;

// Where the other sections start: each behind the one before.
pub const REGIONS: usize = PRICES + 4 * 27;

pub const RIGHTS: usize = REGIONS + 8 * 64;

pub const PROGRAMS: usize = RIGHTS + 4 * 64;

pub const TRIGGERS: usize = PROGRAMS + 4 * 8;

// How many records the sections have, two bytes each: regions, rights, nodes, programs, triggers.
pub const COUNTS: usize = TRIGGERS + 8 * 8;

pub const RIGHTS_COUNT: usize = COUNTS + 2;

pub const PROGRAMS_COUNT: usize = COUNTS + 6;

pub const TRIGGERS_COUNT: usize = COUNTS + 8;

pub const SCRIPT_BYTES: usize = COUNTS + 10;

// What a user may do with a place. Its number in a book is its discriminant.
#[derive(Clone, Copy, PartialEq, Eq, Debug)]
pub enum Right {
    Read = 1,
    Write = 2,
}

// What a program's own posting needs to be taken back: whether one is under way, from its key to the end of its triggers; the places whose cells
// are kept, as they were when first touched; all places that were present when it began; and of the kept cells the amounts and the labels.
#[derive(Clone, Copy)]
pub struct Posting {
    pub under_way: bool,
    pub touched: [u64; 8],
    pub present: [u64; 8],
    pub amounts: [i32; 512],
    pub labels: [[u64; 8]; 512],
}

// All sets of a run: the places that are present, those that are public, the read sets and the write sets of the eight users, and the labels of
// the 512 cells; of a stop about labels, the set that was tested and the set that it had to lie within; and what a posting keeps.
#[derive(Clone, Copy)]
pub struct Sets {
    pub present: [u64; 8],
    pub public: [u64; 8],
    pub read: [[u64; 8]; 8],
    pub write: [[u64; 8]; 8],
    pub labels: [[u64; 8]; 512],
    pub tested: [u64; 8],
    pub bound: [u64; 8],
    pub posting: Posting,
}

// The numbers of a run: what is left of the budget, the trace bytes written so far, and the number and the node of a stop.
#[derive(Clone, Copy)]
pub struct Run {
    pub left: u32,
    pub used: usize,
    pub number: u32,
    pub node: usize,
}

// The sixteen variables of a program or a trigger: their values and their labels.
#[derive(Clone, Copy)]
pub struct Variables {
    pub values: [i32; 16],
    pub labels: [[u64; 8]; 16],
}

// All that a command may change but its variables: the amounts of the 512 cells, the sets, the numbers of the run, and the trace.
#[derive(Drop)]
pub struct Store<'a> {
    pub amounts: [i32; 512],
    pub sets: Sets,
    pub run: Run,
    pub trace: &'a mut [u8],
    ghost short: { length trace.now ≤ 65536 },
    ghost room: { run.used ≤ length trace.now },
}

// What fires a trigger: a cell is put, or it is cleared. Its number in a book is its discriminant.
#[derive(Clone, Copy, PartialEq, Eq, Debug)]
pub enum Event {
    Put = 1,
    Clear = 2,
}

// What a put or a clear writes: at which owner and line, and which amount, 0 for a clear.
#[derive(Clone, Copy)]
pub struct Entry {
    pub owner: i32,
    pub line: i32,
    pub amount: i32,
}

// What an expression looks at: the script, the variables, and of the store the amounts and the sets.
#[derive(Clone, Copy)]
pub struct Scene<'a> {
    pub script: Script<'a>,
    pub vars: &'a Variables,
    pub amounts: &'a [i32; 512],
    pub sets: &'a Sets,
}
