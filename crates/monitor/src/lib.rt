// The answers of a call that runs a book, of which the rules and the claims of this crate speak.
#![tactic(auto)]

use book::Refusal;

// A refusal; a stop with its number, its node, the cost spent and the
// trace bytes written; or a finished run with its cost and its trace bytes.
#[derive(Clone, Copy)]
pub enum Answer {
    Refused(Refusal),
    Stopped(u32, usize, u32, usize),
    Finished(u32, usize),
}

// An answer in the paper's numbers: the refusal, the stop, or 0; the first bad record's index, or the node; the cost spent; the
// trace bytes written. What an answer lacks is 0.
#[derive(Clone, Copy)]
pub struct Values {
    pub number: u32,
    pub at: usize,
    pub cost: u32,
    pub bytes: usize,
}
