// Commands that write variables: assignment and raise.
#![tactic(auto)]

ghost use Rattle.std.specs.Prelude.{◌≡◌, List, ℕ, ◌≤◌, ℤ, length};
ghost use Rattle.book.specs.Kinds.{command};
ghost use Rattle.book.specs.Refusals.{node_at};
ghost use Rattle.machine.specs.Script.{script_of, Node};
ghost use Rattle.machine.specs.Store.{vars_of, store};
ghost use Rattle.machine.specs.Promises.{Does, Commands};
ghost use Rattle.machine.specs.declared.Who.{Who};

use machine::{Run, Scene, Script, Sets, Stopped, Variables};

// 17: variable p becomes a. Stop 25 where the context is not within the variable's old label. No trace is lent: what is promised holds for any.
pub fn assign(
    script: Script,
    n: usize,
    ctx: &[u64; 8],
    vars: &mut Variables,
    amounts: &[i32; 512],
    sets: &mut Sets,
    run: &mut Run,
) -> Result<(), Stopped>
    requires { Node command (script_of script.bytes.now) n × ((node_at (script_of script.bytes.now) n).kind ≡ 17) }
    ensures { (who : Who) (trace : List ℕ) (loan : ℕ) → run.old.used ≤ length trace
        → Does (Commands script.entry.bytes.now ctx.now who n)
        (vars_of vars.old) (store amounts.now sets.old run.old trace loan) result
        (vars_of vars.new) (store amounts.now sets.new run.new trace loan) }
{
    let bytes = script.bytes;
    let at = 16 * n;
    let a = numbers::u16_at(bytes, at + 2);
    let mut label = *ctx;
    let scene = Scene {
        script,
        vars,
        amounts,
        sets,
    };
    // Let else and not `?`: the customer's document fixes this form for a child's answer.
    let Ok(amount) = expressions::eval(&scene, a, run, &mut label) else {
        return Err(Stopped);
    };
    let p = numbers::byte_at(bytes, at + 1);
    let old = &vars.labels[p];
    let compared = places::within(*ctx, *old);
    if !compared.inside {
        return Err(machine::stop_outside(run, sets, 25, n, ctx, old));
    }
    vars.values[p] = amount;
    vars.labels[p] = label;
    Ok(())
}

// 26: variable p is raised by region a, under the same test. No values, no cells and no trace are lent: what is promised holds for any.
pub fn raise(
    script: Script,
    n: usize,
    ctx: &[u64; 8],
    labels: &mut [[u64; 8]; 16],
    sets: &mut Sets,
    run: &mut Run,
) -> Result<(), Stopped>
    requires { Node command (script_of script.bytes.now) n × ((node_at (script_of script.bytes.now) n).kind ≡ 26) }
    ensures { (who : Who) (values amounts : List ℤ) (trace : List ℕ) (loan : ℕ) → run.old.used ≤ length trace
        → Does (Commands script.entry.bytes.now ctx.now who n)
        (vars_of (record { values = values; labels = labels.old })) (store amounts sets.old run.old trace loan) result
        (vars_of (record { values = values; labels = labels.new })) (store amounts sets.new run.new trace loan) }
{
    let bytes = script.bytes;
    let at = 16 * n;
    let p = numbers::byte_at(bytes, at + 1);
    let held = &labels[p];
    let compared = places::within(*ctx, *held);
    if !compared.inside {
        return Err(machine::stop_outside(run, sets, 25, n, ctx, held));
    }
    let region = machine::region_places(script, numbers::u16_at(bytes, at + 2));
    machine::join(&mut labels[p], region);
    Ok(())
}
