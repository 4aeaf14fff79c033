// Commands that change the rights: grant and revoke.
#![tactic(auto)]

ghost use Rattle.std.specs.Prelude.{◌≡◌, true, List, ◌∷◌, ◌++◌, ℕ, ◌+◌, ◌≤◌, ◌<◌, ℤ, eqb, length, drop};
ghost use Rattle.book.specs.Bytes.{byte, le16, four};
ghost use Rattle.book.specs.Kinds.{command, between};
ghost use Rattle.book.specs.Refusals.{node_at};
ghost use Rattle.monitor.specs.Labelled.{Lab};
ghost use Rattle.monitor.specs.Run.{update};
ghost use Rattle.monitor.specs.Rules.{region_places};
ghost use Rattle.monitor.specs.Call.{rows};
ghost use Rattle.machine.specs.Script.{script_of, Node};
ghost use Rattle.machine.specs.Store.{store_of, Public};
ghost use Rattle.machine.specs.Promises.{Does, Commands};
ghost use Rattle.grants.specs.Rights.{altered, right_of, kind_of, Alters, with_amounts};

use machine::{Env, Right, Script, Sets, Stopped, Store};

// The rights after 24 grant or 25 revoke: a region's places added to one user's set, or taken out of it. They are passed and returned by value:
// the customer's document fixes this form.
fn changed(kind: u8, sets: [[u64; 8]; 8], user: usize, region: [u64; 8]) -> [[u64; 8]; 8]
    requires { user < 8 }
    ensures { rows result ≡ update (rows sets) user (altered (eqb kind 24) (rows sets user) region) }
{
    let mut next = sets;
    next[user] = if kind == 24 {
        places::union(sets[user], region)
    } else {
        places::difference(sets[user], region)
    };
    next
}

// The right that a node names: 1 read, 2 write.
fn named(number: u8) -> Right
    ensures { result ≡ right_of number }
{
    match number {
        1 => Right::Read,
        _ => Right::Write,
    }
}

// The trace's kind of a change.
fn record_kind(kind: u8, right: Right) -> u8
    ensures { result ≡ kind_of (eqb kind 24) right }
{
    match (kind, right) {
        (24, Right::Read) => 2,
        (24, Right::Write) => 3,
        (_, Right::Read) => 4,
        (_, Right::Write) => 5,
    }
}

// Grants or revokes as the node at `at` says, and writes the record of it at the start of `rest`.
fn alter(script: Script, at: usize, sets: &mut Sets, rest: &mut [u8])
    requires at_bound { (at + 16 ≤ length script.bytes.now) × (byte script.bytes.now (at + 1) < 8)
        × (le16 script.bytes.now (at + 2) < length (script_of script.bytes.now).regions) }
    requires rest_bound { 8 ≤ length rest.old }
    ensures alters { Alters sets.old (right_of (byte script.entry.bytes.now (at + 4))) (byte script.entry.bytes.now (at + 1))
        (eqb (byte script.entry.bytes.now at) 24)
        (region_places (script_of script.entry.bytes.now) (le16 script.entry.bytes.now (at + 2))) sets.new }
    ensures rest_after { rest.new
        ≡ kind_of (eqb (byte script.entry.bytes.now at) 24) (right_of (byte script.entry.bytes.now (at + 4)))
        ∷ byte script.entry.bytes.now (at + 1) ∷ le16 script.entry.bytes.now (at + 2) ∷ 0 ∷ four 0 ++ drop 8 rest.old }
{
    let bytes = script.bytes;
    let kind = bytes[at];
    let user = numbers::byte_at(bytes, at + 1);
    let region = numbers::u16_at(bytes, at + 2);
    let right = named(bytes[at + 4]);
    traces::put_record(rest, record_kind(kind, right), user as u8, region as u8, 0);
    let old = machine::users_sets(sets, right);
    let next = changed(kind, old, user, machine::region_places(script, region));
    machine::store_users(sets, right, next);
}

// 24 grant and 25 revoke: region a for user p, in the read sets or the write sets. Stops 28, 29 and 30. It looks at no amount: what is promised
// holds for any.
pub fn change(script: Script, n: usize, env: &Env, store: &mut Store) -> Result<(), Stopped>
    requires public_set { Public script.bytes.now store.old.sets }
    requires node { Node command (script_of script.bytes.now) n × (between 24 25 (node_at (script_of script.bytes.now) n).kind ≡ true) }
    ensures changes { (vars : ℕ → Lab ℤ) (amounts : List ℤ) → Does (Commands script.entry.bytes.now env.now.ctx env.now.who n)
        vars (with_amounts amounts (store_of store.old)) result vars (with_amounts amounts (store_of store.new)) }
    ensures amounts_same { store.new.amounts ≡ store.old.amounts }
{
    if env.who.user != 0 {
        return Err(machine::stop(&mut store.run, 28, n));
    }
    let everyone = store.sets.public;
    let compared = places::within(env.ctx, everyone);
    if !compared.inside {
        return Err(machine::stop_outside(
            &mut store.run,
            &mut store.sets,
            29,
            n,
            &env.ctx,
            &everyone,
        ));
    }
    let used = store.run.used;
    if store.trace.len() < used + 8 {
        return Err(machine::stop(&mut store.run, 30, n));
    }
    alter(script, 16 * n, &mut store.sets, &mut store.trace[used..]);
    store.run.used += 8;
    Ok(())
}
