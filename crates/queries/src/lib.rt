// Queries: count, sum, smallest and largest over the cells of a table in a box of owners and lines.
#![tactic(auto)]

ghost use Rattle.std.specs.Prelude.{◌≡◌, ◌^◌, ◌<◌};
ghost use Rattle.std.specs.Int.Signed.{mag};
ghost use Rattle.machine.specs.Store.{cells_held};
ghost use Rattle.queries.specs.Found.{box_in, found_in};
ghost use Rattle.queries.specs.Tallies.{start_of, with_amount, no_amount, amount_of, first_from, first_above};

use machine::Sets;

// What a query finds, and the labels of all cells in its box. The amount is exact, not yet held to 32 bits; none is that of the smallest or
// largest of no present cell.
#[derive(Clone, Copy)]
pub struct Found {
    pub amount: Option<i64>,
    pub label: [u64; 8],
}

// The tally of no amounts: 0, or for 10 smallest and 11 largest a number past every amount, which the first one replaces.
fn start(kind: u8) -> i64
    ensures { result ≡ start_of kind }
{
    match kind {
        8 => 0,
        9 => 0,
        10 => 2147483648,
        _ => -2147483649,
    }
}

// A tally with one more amount, as the kind asks. One test for both 8 and 9: so the compiler takes it out of the loop that calls this.
fn counted(kind: u8, tally: i64, amount: i32) -> i64
    requires { mag tally < 2 ^ 62 }
    ensures { result ≡ with_amount kind tally amount }
{
    let value = i64::from(amount);
    if kind / 2 == 4 {
        return if kind == 8 { tally + 1 } else { tally + value };
    }
    if kind == 10 {
        return tally.min(value);
    }
    value.max(tally)
}

// The first of the eight numbers that is not below `bound`, or 8.
fn first_from(bound: i32) -> usize
    ensures { result ≡ first_from bound }
{
    bound.clamp(0, 8) as usize
}

// The first of the eight numbers that is above `bound`, or 8.
fn first_above(bound: i32) -> usize
    ensures { result ≡ first_above bound }
{
    (bound.clamp(-1, 7) + 1) as usize
}

// Whether a tally has no amount for a query to give: where a smallest or largest is still past every amount. Count and sum always have one.
fn is_nothing(kind: u8, tally: i64) -> bool
    ensures { result ≡ no_amount kind tally }
{
    match kind {
        8 => false,
        9 => false,
        10 => 2147483647 < tally,
        _ => tally < -2147483648,
    }
}

// What a query finds, from the tally of the present cells in its box.
fn amount(kind: u8, tally: i64) -> Option<i64>
    ensures { result ≡ amount_of kind tally }
{
    if is_nothing(kind, tally) {
        return None;
    }
    Some(tally)
}

// A query of kind 8 to 11. The four bounds are the first and the last owner, and the first and the last line; they may lie outside 0 to 7.
pub fn query(kind: u8, table: usize, bounds: &[i32; 4], amounts: &[i32; 512], sets: &Sets) -> Found
    requires { table < 8 }
    ensures { result ≡ found_in kind (cells_held amounts.now sets.now) (box_in bounds.now) table }
{
    let end_owner = first_above(bounds[1]);
    let start_line = first_from(bounds[2]);
    let end_line = first_above(bounds[3]);
    let present = sets.present[table];
    let mut tally = start(kind);
    let mut label = [0u64; 8];
    for owner in first_from(bounds[0])..end_owner {
        for line in start_line..end_line {
            let bit = 8 * owner + line;
            let place = 64 * table + bit;
            machine::join(&mut label, sets.labels[place]);
            if (present >> bit) % 2 == 1 {
                tally = counted(kind, tally, amounts[place]);
            }
        }
    }
    Found {
        amount: amount(kind, tally),
        label,
    }
}
