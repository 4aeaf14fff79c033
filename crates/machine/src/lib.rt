// What the functions that run a book are lent and answer: the script, the variables, the store. The promises they make are in specs/.
#![tactic(auto)]

ghost use Rattle.std.specs.Prelude.{◌≡◌, ◌+◌, ◌≤◌, ◌<◌, length, get_or};
ghost use Rattle.places.specs.Sets.{has, union};
ghost use Rattle.book.specs.Records.{region_of};
ghost use Rattle.book.specs.Kinds.{cost_of};
ghost use Rattle.book.specs.Refusals.{no_region};
ghost use Rattle.monitor.specs.Rules.{region_places};
ghost use Rattle.machine.specs.Script.{script_of};
ghost use Rattle.machine.specs.Store.{empty_sets, right_number, users_of, with_users, with_compared};
ghost use Rattle.machine.specs.Promises.{Stops, Pays};

mod lent;

pub use lent::{
    COUNTS, Entry, Event, PRICES, PROGRAMS, PROGRAMS_COUNT, Posting, REGIONS, RIGHTS, RIGHTS_COUNT,
    Right, Run, SCRIPT_BYTES, Scene, Script, Sets, Store, TRIGGERS, TRIGGERS_COUNT, Variables,
};

// Why a part of a run gives no answer: the run stopped. The number and the node of its stop stand in the numbers of the run, and the sets that
// a test of labels compared beside the other sets.
#[derive(Clone, Copy, PartialEq, Eq, Debug)]
pub struct Stopped;

// Who runs a command: the user, and the least number of a trigger that its writes fire.
#[derive(Clone, Copy)]
pub struct Who {
    pub user: usize,
    pub above: usize,
}

// In which context a command is run, and by whom.
#[derive(Clone, Copy)]
pub struct Env {
    pub ctx: [u64; 8],
    pub who: Who,
}

// Stops the run with a number on node `n`. That ends the run, so the compiler is told that it is rare, and lays out for speed what goes on.
#[cold]
#[inline(never)]
pub fn stop(run: &mut Run, number: u32, n: usize) -> Stopped
    ensures { Stops run.old number n run.new }
{
    run.number = number;
    run.node = n;
    Stopped
}

// Stops the run with a number on node `n`, as one set does not lie within another; both are left beside the other sets.
// They are lent, so that no caller copies them before it stops.
#[cold]
#[inline(never)]
pub fn stop_outside(
    run: &mut Run,
    sets: &mut Sets,
    number: u32,
    n: usize,
    tested: &[u64; 8],
    bound: &[u64; 8],
) -> Stopped
    ensures stops { Stops run.old number n run.new }
    ensures compares { sets.new ≡ with_compared sets.old (record { tested = tested.now; bound = bound.now }) }
{
    sets.tested = *tested;
    sets.bound = *bound;
    stop(run, number, n)
}

// Pays what it costs to enter node `n` of this kind, or stops with 21.
pub fn pay(script: Script, kind: u8, n: usize, run: &mut Run) -> Result<(), Stopped>
    requires { kind < 27 }
    ensures { Pays run.old (cost_of kind) n result run.new }
{
    let bytes = script.bytes;
    let cost = numbers::u32_at(bytes, PRICES + 4 * (kind as usize));
    if run.left < cost {
        return Err(stop(run, 21, n));
    }
    run.left -= cost;
    Ok(())
}

// Joins a label to one that is lent.
pub fn join(label: &mut [u64; 8], more: [u64; 8])
    ensures { label.new ≡ union label.old more }
{
    *label = places::union(*label, more);
}

// Region `region` of the script.
fn region_of(script: Script, region: usize) -> regions::Region
    requires { region < length (script_of script.bytes.now).regions }
    ensures { (result ≡ region_of (get_or (script_of script.entry.bytes.now).regions region no_region)) × (result.table < 8) }
{
    let bytes = script.bytes;
    book::region_at(bytes, REGIONS + 8 * region)
}

// The places of region `region` of the script.
pub fn region_places(script: Script, region: usize) -> [u64; 8]
    requires { region < length (script_of script.bytes.now).regions }
    ensures { result ≡ region_places (script_of script.entry.bytes.now) region }
{
    regions::region_set(region_of(script, region))
}

// Whether `place` is one of them.
pub fn region_holds(script: Script, region: usize, place: usize) -> bool
    requires { (region < length (script_of script.bytes.now).regions) × (place < 512) }
    ensures { result ≡ has (region_places (script_of script.entry.bytes.now) region) place }
{
    regions::holds(region_of(script, region), place)
}

impl Right {
    // Its number in a book.
    #[tactic(auto, unfolding(crate::specs::Store::right_number))]
    pub fn number(self) -> u8
        ensures { result ≡ right_number self }
    {
        self as u8
    }
}

impl Sets {
    // No place, no right and no label, and no posting under way.
    pub fn empty() -> Sets
        ensures { result ≡ empty_sets }
    {
        let none = [0u64; 8];
        Sets {
            present: none,
            public: none,
            read: [none; 8],
            write: [none; 8],
            labels: [none; 512],
            tested: none,
            bound: none,
            posting: Posting {
                under_way: false,
                touched: none,
                present: none,
                amounts: [0i32; 512],
                labels: [none; 512],
            },
        }
    }
}

// The sets of the eight users for a right.
#[tactic(auto, unfolding(crate::specs::Store::users_of))]
pub fn users_sets(sets: &Sets, right: Right) -> [[u64; 8]; 8]
    ensures { result ≡ users_of sets.now right }
{
    match right {
        Right::Read => sets.read,
        Right::Write => sets.write,
    }
}

// Makes these the sets of the eight users for a right; all else stays.
#[tactic(auto, unfolding(crate::specs::Store::with_users))]
pub fn store_users(sets: &mut Sets, right: Right, users: [[u64; 8]; 8])
    ensures { sets.new ≡ with_users sets.old right users }
{
    match right {
        Right::Read => sets.read = users,
        Right::Write => sets.write = users,
    }
}
