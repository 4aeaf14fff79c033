// The tool that names the cell: it runs a book again, and says which places were in the way of its stop.
#![tactic(auto)]

ghost use Rattle.entry.specs.Entry.{lent};
ghost use Rattle.entry.specs.Explain.{Explains};

use entry::Explained;

// Runs the book in a file as `runner::run` does, and explains a stop about labels: its lowest place, and how many there are.
pub fn explain(
    file: &[u8],
    budget: u32,
    amounts: &mut [i32],
    presence: &mut [u64],
    labels: &mut [u64],
    trace: &mut [u8],
) -> Explained
    ensures { Explains file.now budget (lent amounts.old presence.old labels.old trace.old)
        result (lent amounts.new presence.new labels.new trace.new) }
{
    let mut obstacle = [0u64; 8];
    let answer = runner::run_to_obstacle(
        file,
        budget,
        amounts,
        presence,
        labels,
        trace,
        &mut obstacle,
    );
    places::eight(obstacle);
    let place = counting::lowest(obstacle);
    let count = counting::size(obstacle);
    Explained {
        answer,
        place,
        count,
    }
}
