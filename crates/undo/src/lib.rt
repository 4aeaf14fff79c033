// What a program's own posting keeps of the cells that it touches, so that a stop inside a trigger's body can take it back.
#![tactic(auto)]

ghost use Rattle.std.specs.Prelude.{◌≡◌, true, false, ◌<◌};
ghost use Rattle.machine.specs.Store.{idle};
ghost use Rattle.undo.specs.Undo.{Begins, Keeps, TakesBack, Ends};

use machine::{Sets, Stopped};

// Begins a posting, unless one is under way, and says whether it did: nothing is touched yet, and which places are present is kept.
pub fn begin(sets: &mut Sets) -> bool
    ensures { (result ≡ idle sets.old) × (result ≡ true → Begins sets.old sets.new)
        × (result ≡ false → sets.new ≡ sets.old) }
{
    if sets.posting.under_way {
        return false;
    }
    sets.posting.under_way = true;
    sets.posting.touched = [0u64; 8];
    sets.posting.present = sets.present;
    true
}

// Keeps the cell at `place` as it is, unless the posting has touched it before. `eight` tells the proof how many words the touched places have.
pub fn keep(amounts: &[i32; 512], sets: &mut Sets, place: usize)
    requires { place < 512 }
    ensures { Keeps amounts.now sets.old place sets.new }
{
    let posting = &mut sets.posting;
    places::eight(posting.touched);
    if places::contains(posting.touched, place) {
        return;
    }
    let one = places::single(place);
    let word = place / 64;
    posting.touched[word] |= one[word];
    posting.amounts[place] = amounts[place];
    posting.labels[place] = sets.labels[place];
}

// Makes all cells what they were when the posting began. A stop ends the run, so that this is done once at most. `eight` tells the proof how many
// words the touched places have.
fn take_back(amounts: &mut [i32; 512], sets: &mut Sets)
    ensures { TakesBack amounts.old sets.old amounts.new sets.new }
{
    let touched = sets.posting.touched;
    places::eight(touched);
    sets.present = sets.posting.present;
    for place in 0..512 {
        if places::contains(touched, place) {
            amounts[place] = sets.posting.amounts[place];
            sets.labels[place] = sets.posting.labels[place];
        }
    }
}

// Ends the posting that is under way; one that stopped is taken back.
pub fn end(outcome: Result<(), Stopped>, amounts: &mut [i32; 512], sets: &mut Sets)
    ensures { Ends outcome amounts.old sets.old amounts.new sets.new }
{
    sets.posting.under_way = false;
    match outcome {
        Ok(()) => {}
        Err(Stopped) => take_back(amounts, sets),
    }
}
