// The programs of a book, one after another.
#![tactic(auto)]

ghost use Rattle.std.specs.Prelude.{◌≡◌, true, ℕ, ◌<◌, ℤ, length};
ghost use Rattle.monitor.specs.Labelled.{Lab};
ghost use Rattle.machine.specs.Script.{script_of};
ghost use Rattle.machine.specs.Store.{idle, store_of, Public};
ghost use Rattle.machine.specs.Promises.{Does};
ghost use Rattle.programs.specs.Programs.{Program, Programs};

use machine::{Env, Script, Stopped, Store, Variables, Who};

// Runs program `i` with sixteen variables 0 of empty label and the empty context.
fn program(script: Script, i: usize, store: &mut Store) -> Result<(), Stopped>
    requires { Public script.bytes.now store.old.sets × (i < length (script_of script.bytes.now).programs) × (idle store.old.sets ≡ true) }
    ensures { (vars : ℕ → Lab ℤ) → Does (Program script.entry.bytes.now i) vars (store_of store.old) result vars (store_of store.new) }
{
    let bytes = script.bytes;
    let at = machine::PROGRAMS + 4 * i;
    let user = numbers::byte_at(bytes, at);
    let root = numbers::u16_at(bytes, at + 2);
    let none = [0u64; 8];
    let env = Env {
        ctx: none,
        who: Who { user, above: 0 },
    };
    let mut vars = Variables {
        values: [0; 16],
        labels: [none; 16],
    };
    commands::exec(script, root, &env, &mut vars, store)
}

// Runs the programs by number; a stop ends the whole run.
pub fn programs(script: Script, store: &mut Store) -> Result<(), Stopped>
    requires { Public script.bytes.now store.old.sets × (idle store.old.sets ≡ true) }
    ensures { (vars : ℕ → Lab ℤ) → Does (Programs script.entry.bytes.now 0) vars (store_of store.old) result vars (store_of store.new) }
{
    let bytes = script.bytes;
    for i in 0..numbers::u16_at(bytes, machine::PROGRAMS_COUNT) {
        program(script, i, store)?;
    }
    Ok(())
}
