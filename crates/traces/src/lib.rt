// Records of the trace.
#![tactic(auto)]

ghost use Rattle.std.specs.Prelude.{◌≡◌, ◌∷◌, ◌++◌, ◌≤◌, length, drop};
ghost use Rattle.book.specs.Bytes.{four};

// One trace record, written at the start of the unused rest of the trace, which is lent on from its middle: the customer's document fixes
// this form.
pub fn put_record(rest: &mut [u8], kind: u8, user: u8, region: u8, bits: u32)
    requires { 8 ≤ length rest.old }
    ensures { rest.new ≡ kind ∷ user ∷ region ∷ 0 ∷ four bits ++ drop 8 rest.old }
{
    rest[..4].copy_from_slice(&[kind, user, region, 0]);
    rest[4..8].copy_from_slice(&bits.to_le_bytes());
}
