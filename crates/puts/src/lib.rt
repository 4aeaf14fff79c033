// Put and clear up to the triggers that they fire.
#![tactic(auto)]

ghost use Rattle.std.specs.Prelude.{◌≡◌, ◌+◌, ◌<◌};
ghost use Rattle.book.specs.Kinds.{command};
ghost use Rattle.book.specs.Refusals.{node_at};
ghost use Rattle.machine.specs.Script.{script_of, Node};
ghost use Rattle.machine.specs.Store.{cells_held, vars_of};
ghost use Rattle.machine.specs.Promises.{Gives};
ghost use Rattle.machine.specs.Writes.{event_number};
ghost use Rattle.puts.specs.Writing.{NewAmount, Writes};

use machine::{Entry, Env, Event, Run, Scene, Script, Sets, Stopped, Variables};

// What a put or a clear wrote: at which place, and which entry.
#[derive(Clone, Copy)]
pub struct Written {
    pub place: usize,
    pub entry: Entry,
}

// The amount that a put writes, or the 0 of a clear, which adds nothing to `label`.
fn new_amount(
    scene: &Scene,
    n: usize,
    event: Event,
    run: &mut Run,
    label: &mut [u64; 8],
) -> Result<i32, Stopped>
    requires { Node command (script_of scene.now.script.bytes.now) n
        × ((node_at (script_of scene.now.script.bytes.now) n).kind ≡ 20 + event_number event) }
    ensures { Gives (NewAmount scene.now.script.bytes.now n event) (cells_held scene.now.amounts.now scene.now.sets.now)
        (vars_of scene.now.vars.now) run.old label.old result run.new label.new }
{
    match event {
        Event::Put => {
            let bytes = scene.script.bytes;
            let c = numbers::u16_at(bytes, 16 * n + 6);
            // Let else and not `?`: the customer's document fixes this form for a child's answer.
            let Ok(amount) = expressions::eval(scene, c, run, label) else {
                return Err(Stopped);
            };
            Ok(amount)
        }
        Event::Clear => Ok(0),
    }
}

// 21 put and 22 clear: the key and the amount, and the write. The key's label is joined to the context of `env`, and `label` gets that with
// the amount's label. No trace is lent: what is promised holds for any.
pub fn post(
    script: Script,
    n: usize,
    event: Event,
    env: &mut Env,
    vars: &Variables,
    amounts: &mut [i32; 512],
    sets: &mut Sets,
    run: &mut Run,
    label: &mut [u64; 8],
) -> Result<Written, Stopped>
    requires { Node command (script_of script.bytes.now) n
        × ((node_at (script_of script.bytes.now) n).kind ≡ 20 + event_number event) × (env.old.who.user < 8) }
    ensures writes { Writes script.entry.bytes.now env.old.ctx env.old.who n event (vars_of vars.now)
        amounts.old sets.old run.old result amounts.new sets.new run.new env.new.ctx label.new }
    ensures who_same { env.new.who ≡ env.old.who }
{
    let bytes = script.bytes;
    let at = 16 * n;
    let scene = Scene {
        script,
        vars,
        amounts,
        sets,
    };
    let a = numbers::u16_at(bytes, at + 2);
    let Ok(owner) = expressions::eval(&scene, a, run, &mut env.ctx) else {
        return Err(Stopped);
    };
    let b = numbers::u16_at(bytes, at + 4);
    let Ok(line) = expressions::eval(&scene, b, run, &mut env.ctx) else {
        return Err(Stopped);
    };
    *label = env.ctx;
    let Ok(amount) = new_amount(&scene, n, event, run, label) else {
        return Err(Stopped);
    };
    let entry = Entry {
        owner,
        line,
        amount,
    };
    let table = numbers::byte_at(bytes, at + 1);
    let place = postings::post(n, env, table, event as u8, entry, label, amounts, sets, run)?;
    Ok(Written { place, entry })
}
