// The runner, the tool that names the cell, the loader and the writer for C and Rust. include/kagyurma.h declares them.
#![tactic(auto)]

ghost use Rattle.std.specs.Prelude.{◌≡◌, ℕ, ◌≤◌, ◌<◌, Some};
ghost use Rattle.capi.specs.Calls.{run_call, place_number, explain_call, load_call, write_call};

// How a run ended: the paper's number, 0 if it finished; the node of a stop or the index of a refusal; the cost spent and the
// trace bytes written.
#[repr(C)]
#[derive(Clone, Copy)]
pub struct Ran {
    pub number: u32,
    pub at: u32,
    pub cost: u32,
    pub bytes: u32,
}

// How an explained run ended: as a run, and of a stop about labels the lowest place in its way and how many there are. The header calls 512
// `KAGYURMA_NO_PLACE`.
#[repr(C)]
#[derive(Clone, Copy)]
pub struct RanExplained {
    pub number: u32,
    pub at: u32,
    pub cost: u32,
    pub bytes: u32,
    pub place: u32,
    pub count: u32,
}

// How loading or writing ended: the refusal's number, 0 if there was none, and its index; the bytes written, 0 for a load.
// The header calls these `length`.
#[repr(C)]
#[derive(Clone, Copy)]
pub struct Answered {
    pub number: u32,
    pub at: u32,
    pub bytes: u32,
}

// An answer in 32 bits: a refusal's index is below 1,024, and a book has at most 60,000 bytes.
fn told(number: u32, index: usize, bytes: usize) -> Answered
    requires { (index < 1024) × (bytes ≤ 60000) }
    ensures { result ≡ record { number = number; at = index; bytes = bytes } }
{
    Answered {
        number,
        at: index as u32,
        bytes: bytes as u32,
    }
}

// Runs the book in a file in lent memory.
#[unsafe(no_mangle)]
pub extern "C" fn kagyurma_run(
    file: &[u8],
    budget: u32,
    amounts: &mut [i32],
    presence: &mut [u64],
    labels: &mut [u64],
    trace: &mut [u8],
) -> Ran
    ensures { record { answer = result; memory = record { amounts = amounts.new; presence = presence.new; labels = labels.new; trace = trace.new } }
        ≡ run_call file.now budget (record { amounts = amounts.old; presence = presence.old; labels = labels.old; trace = trace.old }) }
{
    let answer = runner::run(file, budget, amounts, presence, labels, trace);
    let values = entry::values_of(answer);
    Ran {
        number: values.number,
        at: values.at as u32,
        cost: values.cost,
        bytes: values.bytes as u32,
    }
}

// The number of a place, or 512 where there is none.
fn place_number(place: Option<usize>) -> u32
    requires { (p : ℕ) → place ≡ Some p → p < 512 }
    ensures { result ≡ place_number place }
{
    place.unwrap_or(512) as u32
}

// Runs the book in a file in lent memory, and names the cell in the way of its stop.
#[unsafe(no_mangle)]
pub extern "C" fn kagyurma_explain(
    file: &[u8],
    budget: u32,
    amounts: &mut [i32],
    presence: &mut [u64],
    labels: &mut [u64],
    trace: &mut [u8],
) -> RanExplained
    ensures { record { answer = result; memory = record { amounts = amounts.new; presence = presence.new; labels = labels.new; trace = trace.new } }
        ≡ explain_call file.now budget (record { amounts = amounts.old; presence = presence.old; labels = labels.old; trace = trace.old }) }
{
    let explained = explainer::explain(file, budget, amounts, presence, labels, trace);
    let answer = explained.answer;
    let named = explained.place;
    let numbers = entry::values_of(answer);
    let place = place_number(named);
    RanExplained {
        number: numbers.number,
        at: numbers.at as u32,
        cost: numbers.cost,
        bytes: numbers.bytes as u32,
        place,
        count: explained.count,
    }
}

// Sets lent memory to the start state of the book in a file.
#[unsafe(no_mangle)]
pub extern "C" fn kagyurma_load(
    file: &[u8],
    amounts: &mut [i32],
    presence: &mut [u64],
    labels: &mut [u64],
) -> Answered
    ensures { record { answer = result; amounts = amounts.new; presence = presence.new; labels = labels.new }
        ≡ load_call file.now amounts.old presence.old labels.old }
{
    match loader::load(file, amounts, presence, labels) {
        Ok(()) => told(0, 0, 0),
        Err(refusal) => told(refusal.reason.number(), refusal.index, 0),
    }
}

// Writes the book in a file with the cells and labels of lent memory for its own.
#[unsafe(no_mangle)]
pub extern "C" fn kagyurma_write(
    file: &[u8],
    amounts: &[i32],
    presence: &[u64],
    labels: &[u64],
    out: &mut [u8],
) -> Answered
    ensures { record { answer = result; out = out.new } ≡ write_call file.now amounts.now presence.now labels.now out.old }
{
    match writer::write(file, amounts, presence, labels, out) {
        Ok(bytes) => told(0, 0, bytes),
        Err(refused) => told(refused.reason.number(), refused.index, 0),
    }
}
