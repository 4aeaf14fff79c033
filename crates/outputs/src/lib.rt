// The command out: a value told to a user, in the trace.
#![tactic(auto)]

ghost use Rattle.std.specs.Prelude.{◌≡◌};
ghost use Rattle.book.specs.Kinds.{command};
ghost use Rattle.book.specs.Refusals.{node_at};
ghost use Rattle.machine.specs.Script.{script_of, Node};
ghost use Rattle.machine.specs.Store.{vars_of, store_of, Public};
ghost use Rattle.machine.specs.Promises.{Does, Commands};
ghost use Rattle.machine.specs.declared.Who.{Who};

use machine::{Scene, Script, Stopped, Store, Variables};

// 23: out a to user p, whoever runs it. Stop 27 where the user may not read it, 30 where the trace is full.
pub fn out(
    script: Script,
    n: usize,
    ctx: &[u64; 8],
    vars: &Variables,
    store: &mut Store,
) -> Result<(), Stopped>
    requires public_set { Public script.bytes.now store.old.sets }
    requires node { Node command (script_of script.bytes.now) n × ((node_at (script_of script.bytes.now) n).kind ≡ 23) }
    ensures tells { (who : Who) → Does (Commands script.entry.bytes.now ctx.now who n)
        (vars_of vars.now) (store_of store.old) result (vars_of vars.now) (store_of store.new) }
    ensures amounts_same { store.new.amounts ≡ store.old.amounts }
{
    let bytes = script.bytes;
    let at = 16 * n;
    let a = numbers::u16_at(bytes, at + 2);
    let mut label = *ctx;
    let scene = Scene {
        script,
        vars,
        amounts: &store.amounts,
        sets: &store.sets,
    };
    // Let else and not `?`: the customer's document fixes this form for a child's answer.
    let Ok(amount) = expressions::eval(&scene, a, &mut store.run, &mut label) else {
        return Err(Stopped);
    };
    let user = numbers::byte_at(bytes, at + 1);
    let readable = places::union(store.sets.public, store.sets.read[user]);
    let compared = places::within(label, readable);
    if !compared.inside {
        return Err(machine::stop_outside(
            &mut store.run,
            &mut store.sets,
            27,
            n,
            &label,
            &readable,
        ));
    }
    let used = store.run.used;
    if store.trace.len() < used + 8 {
        return Err(machine::stop(&mut store.run, 30, n));
    }
    let bits = numbers::bits_of(amount);
    traces::put_record(&mut store.trace[used..], 1, user as u8, 0, bits);
    store.run.used += 8;
    Ok(())
}
