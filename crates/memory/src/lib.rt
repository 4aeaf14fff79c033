// Copies between lent memory and arrays, whose lengths the running functions need not ask for.
#![tactic(auto)]

ghost use Rattle.std.specs.Prelude.{◌≡◌, length};

// Copies `from` over `to`: std's `copy_from_slice`, of whose clauses callers read only that the two are then the same.
pub fn copy<T: Copy>(from: &[T], to: &mut [T])
    requires { length to.old ≡ length from.now }
    ensures { to.new ≡ from.now }
{
    to.copy_from_slice(from)
}
