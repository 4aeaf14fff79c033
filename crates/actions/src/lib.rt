// The commands that run no other command.
#![tactic(auto)]

ghost use Rattle.std.specs.Prelude.{◌≡◌, false};
ghost use Rattle.book.specs.Kinds.{command, between};
ghost use Rattle.book.specs.Refusals.{node_at};
ghost use Rattle.machine.specs.Script.{script_of, Node};
ghost use Rattle.machine.specs.Store.{vars_of, store_of, Public};
ghost use Rattle.machine.specs.Promises.{Does, Commands};

use machine::{Env, Script, Stopped, Store, Variables};

// Does what a command says that is neither 18 to 20, which enter others, nor 21 or 22, which fire triggers.
pub fn act(
    script: Script,
    n: usize,
    env: &Env,
    vars: &mut Variables,
    store: &mut Store,
) -> Result<(), Stopped>
    requires public_set { Public script.bytes.now store.old.sets }
    requires node { Node command (script_of script.bytes.now) n × (between 18 22 (node_at (script_of script.bytes.now) n).kind ≡ false) }
    ensures acts { Does (Commands script.entry.bytes.now env.now.ctx env.now.who n)
        (vars_of vars.old) (store_of store.old) result (vars_of vars.new) (store_of store.new) }
    ensures amounts_same { store.new.amounts ≡ store.old.amounts }
{
    let bytes = script.bytes;
    match bytes[16 * n] {
        17 => assignments::assign(
            script,
            n,
            &env.ctx,
            vars,
            &store.amounts,
            &mut store.sets,
            &mut store.run,
        ),
        23 => outputs::out(script, n, &env.ctx, vars, store),
        24 | 25 => grants::change(script, n, env, store),
        26 => assignments::raise(
            script,
            n,
            &env.ctx,
            &mut vars.labels,
            &mut store.sets,
            &mut store.run,
        ),
        _ => Ok(()),
    }
}
