// Carrying a book forward: it is run, and where the run finishes it is written as the run leaves it, for the next day.
#![tactic(auto)]

ghost use Rattle.std.specs.Prelude.{◌≡◌};
ghost use Rattle.entry.specs.Entry.{lent, result as run_result};
ghost use Rattle.claims.specs.TwoBooks.{finished};
ghost use Rattle.writer.specs.Write.{written_values, write_call};
ghost use Rattle.forward.specs.Forward.{forward_call};

use monitor::Answer;

// How it ended: the answer of the run, and the bytes of the new book, 0 where none is written.
#[derive(Clone, Copy)]
pub struct Carried {
    pub answer: Answer,
    pub bytes: usize,
}

// Whether a run finished.
fn finishes(answer: Answer) -> bool
    ensures { result ≡ finished answer }
{
    match answer {
        Answer::Refused(_) => false,
        Answer::Stopped(_, _, _, _) => false,
        Answer::Finished(_, _) => true,
    }
}

// Writes the book with these cells and labels; answers its bytes, 0 where it is refused.
fn write(file: &[u8], amounts: &[i32], presence: &[u64], labels: &[u64], out: &mut [u8]) -> usize
    ensures { (result ≡ (written_values (write_call file.now amounts.now presence.now labels.now out.old).answer).bytes)
        × (out.new ≡ (write_call file.now amounts.now presence.now labels.now out.old).out) }
{
    writer::write(file, amounts, presence, labels, out).unwrap_or(0)
}

// Runs the book in a file as `runner::run` does. Where the run finishes, `out` gets the book with the cells and labels that it left; else it stays.
pub fn carry_forward(
    file: &[u8],
    budget: u32,
    amounts: &mut [i32],
    presence: &mut [u64],
    labels: &mut [u64],
    trace: &mut [u8],
    out: &mut [u8],
) -> Carried
    ensures { record { ran = run_result result.answer (lent amounts.new presence.new labels.new trace.new); bytes = result.bytes; out = out.new }
        ≡ forward_call file.now budget (lent amounts.old presence.old labels.old trace.old) out.old }
{
    let answer = runner::run(file, budget, amounts, presence, labels, trace);
    if !finishes(answer) {
        return Carried { answer, bytes: 0 };
    }
    let bytes = write(file, amounts, presence, labels, out);
    Carried { answer, bytes }
}
