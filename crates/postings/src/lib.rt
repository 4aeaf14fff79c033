// The write of one cell, with its tests.
#![tactic(auto)]

ghost use Rattle.std.specs.Prelude.{◌≡◌, List, cond, true, ◌&&◌, ℕ, ◌≤◌, ◌<◌, eqb, pos, length};
ghost use Rattle.std.specs.Int.Signed.{le_z};
ghost use Rattle.std.specs.Int.Bits.{bit_or, bit_and, bit_xor};
ghost use Rattle.places.specs.Sets.{union};
ghost use Rattle.monitor.specs.Run.{update};
ghost use Rattle.monitor.specs.Labelled.{Label};
ghost use Rattle.monitor.specs.Rules.{key_place, in_table};
ghost use Rattle.machine.specs.Store.{cells_held, undo_of, rights_in, store, cell};
ghost use Rattle.machine.specs.Writes.{key_of, key_in, Posts};

use machine::{Entry, Env, Run, Sets, Stopped};

// Whether an owner or a line is from 0 to 7.
fn is_digit(number: i32) -> bool
    ensures { result ≡ le_z (pos 0) number && le_z number (pos 7) }
{
    0 <= number && number <= 7
}

// Whether a key is one of a table's.
#[tactic(auto, unfolding(monitor::specs::Rules::in_table))]
fn is_key(owner: i32, line: i32) -> bool
    ensures { result ≡ in_table (key_of owner line) }
{
    is_digit(owner) && is_digit(line)
}

// The place of a key in a table.
fn place_of(table: usize, owner: i32, line: i32) -> usize
    requires { (table < 8) × (in_table (key_of owner line) ≡ true) }
    ensures { (result ≡ key_place table (key_of owner line)) × (result < 512) }
{
    64 * table + 8 * (owner as usize) + (line as usize)
}

// A presence word in which a bit is set by put (event 1) or taken out by clear.
fn marked(event: u8, word: u64, bit: u64) -> u64
    ensures { result ≡ cond (eqb event 1) (bit_or word bit) (bit_xor word (bit_and word bit)) }
{
    match event {
        1 => word | bit,
        _ => word ^ (word & bit),
    }
}

// The cell at `place` becomes an amount, or absent, with a label; what it was is kept first.
fn store_cell(
    amounts: &mut [i32; 512],
    sets: &mut Sets,
    place: usize,
    event: u8,
    amount: i32,
    label: &[u64; 8],
)
    requires { place < 512 }
    ensures sets_after { cells_held amounts.new sets.new
        ≡ update (cells_held amounts.old sets.old) place (record { val = cell event amount; lab = label.now }) }
    ensures sets_unchanged { (rights_in sets.new ≡ rights_in sets.old)
        × (sets.new.public ≡ sets.old.public)
        × (undo_of amounts.new sets.new ≡ undo_of amounts.old sets.old) }
{
    undo::keep(amounts, sets, place);
    let one = places::single(place);
    let word = place / 64;
    amounts[place] = amount;
    sets.present[word] = marked(event, sets.present[word], one[word]);
    sets.labels[place] = *label;
}

// The write of a cell by put (event 1) or clear (event 2), up to the triggers: tests 23, 24 and 26 come before it. The context of `env` has the
// key's label too, and `label` is that with the amount's. No trace is lent: what is promised holds for any.
pub fn post(
    n: usize,
    env: &Env,
    table: usize,
    event: u8,
    entry: Entry,
    label: &[u64; 8],
    amounts: &mut [i32; 512],
    sets: &mut Sets,
    run: &mut Run,
) -> Result<usize, Stopped>
    requires { (env.now.who.user < 8) × (table < 8) }
    ensures posts { (own : Label) → label.now ≡ union env.now.ctx own
        → (trace : List ℕ) (loan : ℕ) → run.old.used ≤ length trace
        → Posts n env.now.ctx env.now.who.user table (key_in entry) (record { val = cell event entry.amount; lab = own })
        (store amounts.old sets.old run.old trace loan) result (store amounts.new sets.new run.new trace loan) }
    ensures used_same { run.new.used ≡ run.old.used }
{
    if !is_key(entry.owner, entry.line) {
        return Err(machine::stop(run, 23, n));
    }
    let place = place_of(table, entry.owner, entry.line);
    if !places::contains(sets.write[env.who.user], place) {
        return Err(machine::stop(run, 24, n));
    }
    let compared = places::within(env.ctx, sets.labels[place]);
    if !compared.inside {
        let old = sets.labels[place];
        return Err(machine::stop_outside(run, sets, 26, n, &env.ctx, &old));
    }
    store_cell(amounts, sets, place, event, entry.amount, label);
    Ok(place)
}
