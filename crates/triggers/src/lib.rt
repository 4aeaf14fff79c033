// Triggers: whether one fits a write, and the variables with which it runs.
#![tactic(auto)]

ghost use Rattle.std.specs.Prelude.{◌≡◌, ◌-◌, ◌<◌, length};
ghost use Rattle.monitor.specs.Run.{update};
ghost use Rattle.monitor.specs.Rules.{fitting, trigger_at};
ghost use Rattle.machine.specs.Script.{script_of};
ghost use Rattle.machine.specs.Store.{row_at, vars_of};
ghost use Rattle.triggers.specs.Search.{first_fitting};

use machine::{Entry, Script, Variables};

// A trigger that fits a write: its number, its user and its body.
#[derive(Clone, Copy)]
pub struct Fitting {
    pub number: usize,
    pub user: usize,
    pub body: usize,
}

// Whether trigger `t` fits the write of the cell at `place`: its event, and its region holds the place.
fn fits(script: Script, t: usize, event: u8, place: usize) -> bool
    requires { (t < length (script_of script.bytes.now).triggers) × (place < 512) }
    ensures { result ≡ fitting (script_of script.entry.bytes.now) event place (trigger_at (script_of script.entry.bytes.now) t) }
{
    let bytes = script.bytes;
    let at = machine::TRIGGERS + 8 * t;
    if bytes[at + 1] != event {
        return false;
    }
    machine::region_holds(script, numbers::byte_at(bytes, at), place)
}

// The first trigger from number `t` on that fits the write of the cell at `place`, by put (event 1) or clear (event 2). No other event has one.
pub fn next_fitting(script: Script, t: usize, event: u8, place: usize) -> Option<Fitting>
    requires { place < 512 }
    ensures { result ≡ first_fitting script.entry.bytes.now event place (length (script_of script.entry.bytes.now).triggers - t) t }
{
    let bytes = script.bytes;
    let count = numbers::u16_at(bytes, machine::TRIGGERS_COUNT);
    for number in t..count {
        if fits(script, number, event, place) {
            let at = machine::TRIGGERS + 8 * number;
            let user = numbers::byte_at(bytes, at + 2);
            let body = numbers::u16_at(bytes, at + 4);
            return Some(Fitting { number, user, body });
        }
    }
    None
}

// Makes the first three of a trigger's variables owner, line and amount of the write that fired it, and the amount's label `label`.
pub fn set_variables(entry: Entry, label: &[u64; 8], vars: &mut Variables)
    ensures { vars_of vars.new ≡ update (update (update (vars_of vars.old)
        0 (record { val = entry.owner; lab = row_at vars.old.labels 0 }))
        1 (record { val = entry.line; lab = row_at vars.old.labels 1 }))
        2 (record { val = entry.amount; lab = label.now }) }
{
    vars.values[0] = entry.owner;
    vars.values[1] = entry.line;
    vars.values[2] = entry.amount;
    vars.labels[2] = *label;
}
