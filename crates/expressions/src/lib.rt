// Expressions: evaluated by recursion over node number. Labels are joined to one that is lent, so that none is copied on the way up.
// A child's answer is taken apart by let else, the value or the stop passed upward: the customer's document fixes this form.
#![tactic(auto)]

ghost use Rattle.std.specs.Prelude.{◌≡◌, true, ℕ, ◌<◌};
ghost use Rattle.book.specs.Kinds.{expression, between};
ghost use Rattle.book.specs.Refusals.{node_at};
ghost use Rattle.monitor.specs.Labelled.{Lab};
ghost use Rattle.monitor.specs.Run.{Cell};
ghost use Rattle.machine.specs.Script.{script_of, Node};
ghost use Rattle.machine.specs.Store.{cells_held, vars_of};
ghost use Rattle.machine.specs.Promises.{Gives, Evaluates, Expresses};
ghost use Rattle.expressions.specs.Values.{combine};

use machine::{Run, Scene, Stopped};

// The exact value of 3 a+b, 4 a−b, 5 a equals b, 6 a less than b.
fn combined(kind: u8, a: i32, b: i32) -> i64
    ensures { result ≡ combine kind a b }
{
    let (a, b) = (i64::from(a), i64::from(b));
    match kind {
        3 => a + b,
        4 => a - b,
        5 => i64::from(a == b),
        _ => i64::from(a < b),
    }
}

// 1 a constant, 2 a variable, whose label is joined to `label`. In line, since most expressions are leaves.
#[inline(always)]
fn leaf(scene: &Scene, n: usize, run: &mut Run, label: &mut [u64; 8]) -> Result<i32, Stopped>
    requires { Node expression (script_of scene.now.script.bytes.now) n × ((node_at (script_of scene.now.script.bytes.now) n).kind < 3) }
    ensures { (cells : ℕ → Lab Cell) → Gives (Evaluates scene.now.script.bytes.now n) cells
        (vars_of scene.now.vars.now) run.old label.old result run.new label.new }
{
    let bytes = scene.script.bytes;
    let at = 16 * n;
    let kind = bytes[at];
    machine::pay(scene.script, kind, n, run)?;
    if kind == 1 {
        return Ok(numbers::i32_at(bytes, at + 10));
    }
    let p = numbers::byte_at(bytes, at + 1);
    let vars = scene.vars;
    machine::join(label, vars.labels[p]);
    Ok(vars.values[p])
}

// Evaluates expression `n`: pays its cost, or stops with 21, gives what its kind says, and joins its label to `label`. 3 to 6 have two parts.
#[cycle(eval_part_query)]
pub fn eval(scene: &Scene, n: usize, run: &mut Run, label: &mut [u64; 8]) -> Result<i32, Stopped>
    requires { Node expression (script_of scene.now.script.bytes.now) n }
    ensures { Gives (Evaluates scene.now.script.bytes.now n) (cells_held scene.now.amounts.now scene.now.sets.now)
        (vars_of scene.now.vars.now) run.old label.old result run.new label.new }
{
    let bytes = scene.script.bytes;
    let at = 16 * n;
    let kind = bytes[at];
    if kind < 3 {
        return leaf(scene, n, run, label);
    }
    machine::pay(scene.script, kind, n, run)?;
    if 6 < kind {
        return query(scene, n, run, label);
    }
    let a = numbers::u16_at(bytes, at + 2);
    let Ok(x) = part(scene, a, run, label) else {
        return Err(Stopped);
    };
    let b = numbers::u16_at(bytes, at + 4);
    let Ok(y) = part(scene, b, run, label) else {
        return Err(Stopped);
    };
    let exact = combined(kind, x, y);
    let Ok(value) = i32::try_from(exact) else {
        return Err(machine::stop(run, 22, n));
    };
    Ok(value)
}

// The same for a part of another: most are leaves, and are evaluated without a call of `eval`, which has a large frame.
#[cycle(eval_part_query)]
#[inline(always)]
fn part(scene: &Scene, n: usize, run: &mut Run, label: &mut [u64; 8]) -> Result<i32, Stopped>
    requires { Node expression (script_of scene.now.script.bytes.now) n }
    ensures { Gives (Evaluates scene.now.script.bytes.now n) (cells_held scene.now.amounts.now scene.now.sets.now)
        (vars_of scene.now.vars.now) run.old label.old result run.new label.new }
{
    let bytes = scene.script.bytes;
    if 2 < bytes[16 * n] {
        return eval(scene, n, run, label);
    }
    leaf(scene, n, run, label)
}

// 8 to 11: four bounds, and the cells of a table in their box; 31 where these give no amount.
// The loop calls `part` from one place: from four, it would not be in line.
#[cycle(eval_part_query)]
fn query(scene: &Scene, n: usize, run: &mut Run, label: &mut [u64; 8]) -> Result<i32, Stopped>
    requires { Node expression (script_of scene.now.script.bytes.now) n
        × (between 8 11 (node_at (script_of scene.now.script.bytes.now) n).kind ≡ true) }
    ensures { Gives (Expresses scene.now.script.bytes.now n) (cells_held scene.now.amounts.now scene.now.sets.now)
        (vars_of scene.now.vars.now) run.old label.old result run.new label.new }
{
    let bytes = scene.script.bytes;
    let at = 16 * n;
    let mut bounds = [0i32; 4];
    for i in 0..4 {
        let child = numbers::u16_at(bytes, at + 2 + 2 * i);
        let Ok(bound) = part(scene, child, run, label) else {
            return Err(Stopped);
        };
        bounds[i] = bound;
    }
    let table = numbers::byte_at(bytes, at + 1);
    let found = queries::query(bytes[at], table, &bounds, scene.amounts, scene.sets);
    machine::join(label, found.label);
    let Some(exact) = found.amount else {
        return Err(machine::stop(run, 31, n));
    };
    let Ok(value) = i32::try_from(exact) else {
        return Err(machine::stop(run, 22, n));
    };
    Ok(value)
}
