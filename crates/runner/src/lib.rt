// The runner: the entry that takes a file, a budget and lent memory, and what it is made of.
#![tactic(auto)]

ghost use Rattle.std.specs.Prelude.{◌≡◌, true, ◌≤◌, length, Ok};
ghost use Rattle.book.specs.Start.{Lengths};
ghost use Rattle.book.specs.Refusals.{verdict};
ghost use Rattle.monitor.specs.Call.{amounts_in, presence_in, labels_in, answered};
ghost use Rattle.machine.specs.Store.{cells_held};
ghost use Rattle.entry.specs.Entry.{lent, result as run_result, Runs};
ghost use Rattle.entry.specs.Explain.{obstacle_after, obstacle_called};

use book::{Reason, Refusal};
use machine::{Run, Script, Sets, Store};
use monitor::Answer;

// Stores the cells that a run leaves in lent memory.
fn store_cells(store: &Store, amounts: &mut [i32], presence: &mut [u64], labels: &mut [u64])
    requires { Lengths amounts.old presence.old labels.old }
    ensures { (amounts.new ≡ amounts_in (cells_held store.now.amounts store.now.sets))
        × (presence.new ≡ presence_in (cells_held store.now.amounts store.now.sets))
        × (labels.new ≡ labels_in (cells_held store.now.amounts store.now.sets) 512) }
{
    memory::copy(&store.amounts, amounts);
    memory::copy(&store.sets.present, presence);
    for place in 0..512 {
        labels::set_label(labels, place, store.sets.labels[place]);
    }
}

// Runs an accepted book from its start state; at the end lent memory gets its cells, and `obstacle` the places in the way of a stop. The run works
// on a store of its own, so that no running function asks for its lengths.
fn started(
    file: &[u8],
    budget: u32,
    amounts: &mut [i32],
    presence: &mut [u64],
    labels: &mut [u64],
    trace: &mut [u8],
    obstacle: &mut [u64; 8],
) -> Answer
    requires { (verdict file.now ≡ Ok tt) × Lengths amounts.old presence.old labels.old × (length trace.old ≤ 65536) }
    ensures ran { run_result result (lent amounts.new presence.new labels.new trace.new)
        ≡ answered true file.now budget (lent amounts.old presence.old labels.old trace.old) (Ok tt) }
    ensures in_the_way { obstacle.new ≡ obstacle_after file.now budget
        (lent amounts.old presence.old labels.old trace.old) obstacle.old (Ok tt) }
{
    let mut bytes = [0u8; machine::SCRIPT_BYTES];
    start::copy_script(file, &mut bytes);
    let script = Script { bytes: &bytes };
    let mut store = Store {
        amounts: [0i32; 512],
        sets: Sets::empty(),
        run: Run {
            left: budget,
            used: 0,
            number: 0,
            node: 0,
        },
        trace,
    };
    let present = loader::load_cells(file, &mut store.amounts);
    start::start_sets(file, script, present, &mut store.sets);
    let outcome = programs::programs(script, &mut store);
    store_cells(&store, amounts, presence, labels);
    *obstacle = entry::obstacle_of(outcome, &store.run, &store.sets);
    entry::answer_of(outcome, &store.run, budget)
}

// A call whose budget or lent memory does not fit.
const LENT: Answer = Answer::Refused(Refusal {
    reason: Reason::Lent,
    index: 0,
});

// Runs the book in a file: from its start state it runs its programs, leaves in lent memory what they leave, and answers; or refuses and leaves
// all as it was. The places in the way of a stop about labels are left in `obstacle`; after any other end of a run it is empty.
pub fn run_to_obstacle(
    file: &[u8],
    budget: u32,
    amounts: &mut [i32],
    presence: &mut [u64],
    labels: &mut [u64],
    trace: &mut [u8],
    obstacle: &mut [u64; 8],
) -> Answer
    ensures ran { Runs file.now budget (lent amounts.old presence.old labels.old trace.old)
        result (lent amounts.new presence.new labels.new trace.new) }
    ensures in_the_way { obstacle.new ≡ obstacle_called file.now budget
        (lent amounts.old presence.old labels.old trace.old) obstacle.old }
{
    if 1000000 < budget {
        return LENT;
    }
    if 65536 < trace.len() {
        return LENT;
    }
    if !loader::lent_fits(amounts, presence, labels) {
        return LENT;
    }
    match reader::inspect(file) {
        Err(refusal) => Answer::Refused(refusal),
        Ok(()) => started(file, budget, amounts, presence, labels, trace, obstacle),
    }
}

// Runs the book in a file, for those who do not ask what stood in the way.
pub fn run(
    file: &[u8],
    budget: u32,
    amounts: &mut [i32],
    presence: &mut [u64],
    labels: &mut [u64],
    trace: &mut [u8],
) -> Answer
    ensures { Runs file.now budget (lent amounts.old presence.old labels.old trace.old)
        result (lent amounts.new presence.new labels.new trace.new) }
{
    let mut unread = [0u64; 8];
    run_to_obstacle(file, budget, amounts, presence, labels, trace, &mut unread)
}
