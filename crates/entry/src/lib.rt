// The answers of the entries, from the end of a run, and the paper's numbers for them.
#![tactic(auto)]

ghost use Rattle.std.specs.Prelude.{◌≡◌, ◌≤◌};
ghost use Rattle.monitor.specs.Call.{values};
ghost use Rattle.monitor.specs.Run.{about_labels};
ghost use Rattle.machine.specs.Promises.{compared_in};
ghost use Rattle.entry.specs.Entry.{answer_of};
ghost use Rattle.entry.specs.Explain.{obstacle, obstacle_of};

use machine::{Run, Sets, Stopped};
use monitor::{Answer, Values};

// The answer of the tool that names the cell: that of the run, and of a stop about labels the lowest place in its way and the number of such
// places.
#[derive(Clone, Copy)]
pub struct Explained {
    pub answer: Answer,
    pub place: Option<usize>,
    pub count: u32,
}

// The answer of a run that began with this budget.
#[tactic(auto, unfolding(crate::specs::Entry::answer_of))]
pub fn answer_of(outcome: Result<(), Stopped>, run: &Run, budget: u32) -> Answer
    requires { run.now.left ≤ budget }
    ensures { result ≡ answer_of outcome run.now budget }
{
    let cost = budget - run.left;
    match outcome {
        Ok(()) => Answer::Finished(cost, run.used),
        Err(Stopped) => Answer::Stopped(run.number, run.node, cost, run.used),
    }
}

// Whether a stop with this number is about labels.
fn about_labels(number: u32) -> bool
    ensures { result ≡ about_labels number }
{
    matches!(number, 25..=27 | 29)
}

// The places in the way of a stop with this number: where it is about labels, those of the set that was tested which the set that it had to lie
// within lacks.
fn stop_obstacle(number: u32, sets: &Sets) -> [u64; 8]
    ensures { result ≡ obstacle number (compared_in number sets.now) }
{
    if !about_labels(number) {
        return [0u64; 8];
    }
    places::difference(sets.tested, sets.bound)
}

// The places in the way of the end of a run: a finished one has none.
#[tactic(auto, unfolding(crate::specs::Explain::obstacle_of))]
pub fn obstacle_of(outcome: Result<(), Stopped>, run: &Run, sets: &Sets) -> [u64; 8]
    ensures { result ≡ obstacle_of outcome run.now sets.now }
{
    match outcome {
        Ok(()) => [0u64; 8],
        Err(Stopped) => stop_obstacle(run.number, sets),
    }
}

// The paper's number and values for an answer.
#[tactic(auto, unfolding(monitor::specs::Call::values))]
pub fn values_of(answer: Answer) -> Values
    ensures { result ≡ values answer }
{
    match answer {
        Answer::Refused(refusal) => Values {
            number: refusal.reason.number(),
            at: refusal.index,
            cost: 0,
            bytes: 0,
        },
        Answer::Stopped(number, node, cost, bytes) => Values {
            number,
            at: node,
            cost,
            bytes,
        },
        Answer::Finished(cost, bytes) => Values {
            number: 0,
            at: 0,
            cost,
            bytes,
        },
    }
}
