// Commands and triggers: execution and firing call each other, with what is left of the budget and trigger numbers falling.
#![tactic(auto)]

ghost use Rattle.std.specs.Prelude.{◌≡◌, true, false, ℕ, ◌+◌, ◌<◌, ℤ, replicate};
ghost use Rattle.places.specs.Sets.{union};
ghost use Rattle.book.specs.Kinds.{command, between};
ghost use Rattle.book.specs.Refusals.{node_at};
ghost use Rattle.monitor.specs.Labelled.{Label, Lab};
ghost use Rattle.machine.specs.Script.{script_of, Node};
ghost use Rattle.machine.specs.Store.{cells_held, idle, vars_of, store_of, Public};
ghost use Rattle.machine.specs.Promises.{Does, Enters, Commands, Stands};
ghost use Rattle.machine.specs.Writes.{event_number, key_in, cell_in, Fires};
ghost use Rattle.commands.specs.Parts.{Ready, Decides};

use machine::{Env, Event, Run, Scene, Script, Stopped, Store, Variables, Who};
use puts::Written;

// Executes command `n`. A sequence is a loop over its list of commands: a long list needs one frame, and the one call of `enter` is compiled in place.
#[cycle(branch_enter_exec_fire_post_repeat_write)]
pub fn exec(
    script: Script,
    n: usize,
    env: &Env,
    vars: &mut Variables,
    store: &mut Store,
) -> Result<(), Stopped>
    requires { Ready script.bytes.now env.now.who n store.old.sets }
    ensures { Does (Enters script.entry.bytes.now env.now.ctx env.now.who n)
        (vars_of vars.old) (store_of store.old) result (vars_of vars.new) (store_of store.new) }
{
    let bytes = script.bytes;
    let mut turn = n;
    loop {
        let at = 16 * turn;
        let more = bytes[at] == 18;
        let mut next = turn;
        if more {
            machine::pay(script, 18, turn, &mut store.run)?;
            next = numbers::u16_at(bytes, at + 2);
        }
        enter(script, next, env, vars, store)?;
        if !more {
            return Ok(());
        }
        turn = numbers::u16_at(bytes, at + 4);
    }
}

// Enters one command: pays its cost, or stops with 21, and does what its kind says. A sequence in first place is a list of its own.
#[cycle(branch_enter_exec_fire_post_repeat_write)]
fn enter(
    script: Script,
    n: usize,
    env: &Env,
    vars: &mut Variables,
    store: &mut Store,
) -> Result<(), Stopped>
    requires { Ready script.bytes.now env.now.who n store.old.sets }
    ensures { Does (Enters script.entry.bytes.now env.now.ctx env.now.who n)
        (vars_of vars.old) (store_of store.old) result (vars_of vars.new) (store_of store.new) }
{
    let bytes = script.bytes;
    let kind = bytes[16 * n];
    if kind == 18 {
        return exec(script, n, env, vars, store);
    }
    machine::pay(script, kind, n, &mut store.run)?;
    match kind {
        19 => branch(script, n, env, vars, store),
        20 => repeat(script, n, env, vars, store),
        21 => post(script, n, Event::Put, env, vars, store),
        22 => post(script, n, Event::Clear, env, vars, store),
        // Two calls: with one, Rattle's own compiler puts the frame of `act` into that of each nested command.
        17 => actions::act(script, n, env, vars, store),
        _ => actions::act(script, n, env, vars, store),
    }
}

// 19: if a nonzero then b else c; inside, the context gains the condition's label.
#[cycle(branch_enter_exec_fire_post_repeat_write)]
fn branch(
    script: Script,
    n: usize,
    env: &Env,
    vars: &mut Variables,
    store: &mut Store,
) -> Result<(), Stopped>
    requires ready { Ready script.bytes.now env.now.who n store.old.sets }
    requires n_value { (node_at (script_of script.bytes.now) n).kind ≡ 19 }
    ensures { Does (Commands script.entry.bytes.now env.now.ctx env.now.who n)
        (vars_of vars.old) (store_of store.old) result (vars_of vars.new) (store_of store.new) }
{
    let mut inner = *env;
    let scene = Scene {
        script,
        vars,
        amounts: &store.amounts,
        sets: &store.sets,
    };
    let Some(way) = decide(&scene, n, &mut store.run, &mut inner.ctx)? else {
        return Ok(());
    };
    exec(script, way, &inner, vars, store)
}

// 20: while a nonzero do b, a loop; its cost is paid anew for each test, and the context has the labels of all tests so far.
#[cycle(branch_enter_exec_fire_post_repeat_write)]
fn repeat(
    script: Script,
    n: usize,
    env: &Env,
    vars: &mut Variables,
    store: &mut Store,
) -> Result<(), Stopped>
    requires ready { Ready script.bytes.now env.now.who n store.old.sets }
    requires n_value { (node_at (script_of script.bytes.now) n).kind ≡ 20 }
    ensures { Does (Commands script.entry.bytes.now env.now.ctx env.now.who n)
        (vars_of vars.old) (store_of store.old) result (vars_of vars.new) (store_of store.new) }
{
    let mut inner = *env;
    loop {
        let scene = Scene {
            script,
            vars,
            amounts: &store.amounts,
            sets: &store.sets,
        };
        let Some(body) = decide(&scene, n, &mut store.run, &mut inner.ctx)? else {
            return Ok(());
        };
        exec(script, body, &inner, vars, store)?;
        machine::pay(script, 20, n, &mut store.run)?;
    }
}

// The test of 19 and 20: a nonzero leads to b; zero leads an if to c, and a while to none, its end. Its label is joined to `inner`.
fn decide(
    scene: &Scene,
    n: usize,
    run: &mut Run,
    inner: &mut [u64; 8],
) -> Result<Option<usize>, Stopped>
    requires { Node command (script_of scene.now.script.bytes.now) n
        × (between 19 20 (node_at (script_of scene.now.script.bytes.now) n).kind ≡ true) }
    ensures { Decides scene.now.script.bytes.now n (cells_held scene.now.amounts.now scene.now.sets.now)
        (vars_of scene.now.vars.now) run.old inner.old result run.new inner.new }
{
    let bytes = scene.script.bytes;
    let at = 16 * n;
    let a = numbers::u16_at(bytes, at + 2);
    let Ok(value) = expressions::eval(scene, a, run, inner) else {
        return Err(Stopped);
    };
    if value != 0 {
        return Ok(Some(numbers::u16_at(bytes, at + 4)));
    }
    if bytes[at] == 20 {
        return Ok(None);
    }
    Ok(Some(numbers::u16_at(bytes, at + 6)))
}

// 21 put and 22 clear. A posting of the program's own is taken back if it stops; one of a trigger belongs to that under way.
#[cycle(branch_enter_exec_fire_post_repeat_write)]
fn post(
    script: Script,
    n: usize,
    event: Event,
    env: &Env,
    vars: &Variables,
    store: &mut Store,
) -> Result<(), Stopped>
    requires ready { Ready script.bytes.now env.now.who n store.old.sets }
    requires n_value { (node_at (script_of script.bytes.now) n).kind ≡ 20 + event_number event }
    ensures { Does (Commands script.entry.bytes.now env.now.ctx env.now.who n)
        (vars_of vars.now) (store_of store.old) result (vars_of vars.now) (store_of store.new) }
{
    let own = undo::begin(&mut store.sets);
    let ran = write(script, n, event, env, vars, store);
    if own {
        undo::end(ran, &mut store.amounts, &mut store.sets);
    }
    ran
}

// What a put or a clear does if it is not taken back: the key and the amount, the write, and the triggers in context plus key label.
#[cycle(branch_enter_exec_fire_post_repeat_write)]
fn write(
    script: Script,
    n: usize,
    event: Event,
    env: &Env,
    vars: &Variables,
    store: &mut Store,
) -> Result<(), Stopped>
    requires lent { Public script.bytes.now store.old.sets × Node command (script_of script.bytes.now) n
        × (env.now.who.user < 8) × (idle store.old.sets ≡ false) }
    requires n_value { (node_at (script_of script.bytes.now) n).kind ≡ 20 + event_number event }
    ensures { Does (Stands script.entry.bytes.now env.now.ctx env.now.who n)
        (vars_of vars.now) (store_of store.old) result (vars_of vars.now) (store_of store.new) }
{
    let mut inner = *env;
    let mut label = [0u64; 8];
    let written = puts::post(
        script,
        n,
        event,
        &mut inner,
        vars,
        &mut store.amounts,
        &mut store.sets,
        &mut store.run,
        &mut label,
    )?;
    fire(script, event, written, &inner, &label, store)
}

// Makes the label of each variable this one, in place: sixteen labels in an array of their own would be copied into the struct, 1,024 bytes for each
// trigger that runs.
fn label_all(labels: &mut [[u64; 8]; 16], label: &[u64; 8])
    ensures { labels.new ≡ replicate 16 label.now }
{
    for p in 0..16 {
        labels[p] = *label;
    }
}

// Runs the triggers that fit a write, by number, a turn for each; a trigger's writes fire only those above it. Its variables are owner, line and
// amount of the write, and 0, of the context's label but for the amount's, which is `label`.
#[cycle(branch_enter_exec_fire_post_repeat_write)]
fn fire(
    script: Script,
    event: Event,
    written: Written,
    env: &Env,
    label: &[u64; 8],
    store: &mut Store,
) -> Result<(), Stopped>
    requires { Public script.bytes.now store.old.sets × (written.place < 512) × (idle store.old.sets ≡ false) }
    ensures { (own : Label) (vars : ℕ → Lab ℤ) → label.now ≡ union env.now.ctx own
        → Does (Fires script.entry.bytes.now env.now.ctx env.now.who.above (event_number event) written.place (key_in written.entry) (cell_in event written.entry own))
        vars (store_of store.old) result vars (store_of store.new) }
{
    let mut from = env.who.above;
    loop {
        let Some(next) = triggers::next_fitting(script, from, event as u8, written.place) else {
            return Ok(());
        };
        from = next.number + 1;
        let mut vars = Variables {
            values: [0; 16],
            labels: [[0u64; 8]; 16],
        };
        label_all(&mut vars.labels, &env.ctx);
        triggers::set_variables(written.entry, label, &mut vars);
        let its = Env {
            ctx: env.ctx,
            who: Who {
                user: next.user,
                above: from,
            },
        };
        exec(script, next.body, &its, &mut vars, store)?;
    }
}
