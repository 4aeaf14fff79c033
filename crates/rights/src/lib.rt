// The rights at the start of a run: the public set, and the read and write sets of the users, from the rights records of the script.
#![tactic(auto)]

ghost use Rattle.std.specs.Prelude.{◌≡◌};
ghost use Rattle.book.specs.Start.{tabulate, right_set, public_set};
ghost use Rattle.machine.specs.Script.{script_of};

use machine::Script;

// The places of all regions in the rights records of this kind for this user.
fn right_set(script: Script, kind: u8, user: usize) -> [u64; 8]
    ensures { result ≡ right_set (script_of script.entry.bytes.now) kind user }
{
    let code = script.bytes;
    let mut set = [0u64; 8];
    for right in (0..numbers::u16_at(code, machine::RIGHTS_COUNT)).rev() {
        let at = machine::RIGHTS + 4 * right;
        if code[at] == kind && numbers::byte_at(code, at + 1) == user {
            let held = machine::region_places(script, numbers::byte_at(code, at + 2));
            let more = places::union(held, set);
            set = more;
        }
    }
    set
}

// The public set.
pub fn public_set(script: Script) -> [u64; 8]
    ensures { result ≡ public_set (script_of script.entry.bytes.now) }
{
    right_set(script, 0, 0)
}

// The sets of the eight users for the rights records of this kind: 1 read, 2 write.
pub fn right_sets(script: Script, kind: u8) -> [[u64; 8]; 8]
    ensures { result ≡ tabulate (right_set (script_of script.entry.bytes.now) kind) 8 }
{
    let mut sets = [[0u64; 8]; 8];
    for user in 0..8 {
        let set = right_set(script, kind, user);
        sets[user] = set;
    }
    sets
}
