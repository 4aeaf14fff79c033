// The table of node kinds: what a node costs, its sort, and the roles of its fields.
#![tactic(auto)]

ghost use Rattle.std.specs.Prelude.{◌≡◌, ◌<◌};
ghost use Rattle.book.specs.Layout.{count, section, decode};
ghost use Rattle.book.specs.Start.{tabulate};
ghost use Rattle.book.specs.Kinds.{cost_of, row_of, sort_of};
ghost use Rattle.book.specs.Refusals.{Laid, node_at};
ghost use Rattle.kinds.specs.Table.{kinds_table};

// The sorts of node. A field that names a child has the child's sort as its role.
pub const NO_KIND: u8 = 0;

pub const EXPRESSION: u8 = 1;

pub const COMMAND: u8 = 2;

// The other roles of a field; 0 is that of a field that the kind does not name.
pub const VARIABLE: u8 = 3;

pub const TABLE: u8 = 4;

pub const USER: u8 = 5;

pub const REGION: u8 = 6;

pub const RIGHT: u8 = 7;

pub const CONSTANT: u8 = 8;

// A row for each kind: its cost, its sort, and the roles of p, a, b, c, d and k.
static KINDS: [[u8; 8]; 27] = [
    [1, 0, 0, 0, 0, 0, 0, 0], // 0 none
    [1, 1, 0, 0, 0, 0, 0, 8], // 1 constant k
    [1, 1, 3, 0, 0, 0, 0, 0], // 2 variable p
    [1, 1, 0, 1, 1, 0, 0, 0], // 3 a+b
    [1, 1, 0, 1, 1, 0, 0, 0], // 4 a−b
    [1, 1, 0, 1, 1, 0, 0, 0], // 5 a equals b
    [1, 1, 0, 1, 1, 0, 0, 0], // 6 a less than b
    [1, 0, 0, 0, 0, 0, 0, 0], // 7 none
    [4, 1, 4, 1, 1, 1, 1, 0], // 8 count over table p, owners a to b, lines c to d
    [4, 1, 4, 1, 1, 1, 1, 0], // 9 sum
    [4, 1, 4, 1, 1, 1, 1, 0], // 10 smallest
    [4, 1, 4, 1, 1, 1, 1, 0], // 11 largest
    [1, 0, 0, 0, 0, 0, 0, 0], // 12 none
    [1, 0, 0, 0, 0, 0, 0, 0], // 13 none
    [1, 0, 0, 0, 0, 0, 0, 0], // 14 none
    [1, 0, 0, 0, 0, 0, 0, 0], // 15 none
    [1, 2, 0, 0, 0, 0, 0, 0], // 16 skip
    [1, 2, 3, 1, 0, 0, 0, 0], // 17 variable p becomes a
    [1, 2, 0, 2, 2, 0, 0, 0], // 18 a then b
    [1, 2, 0, 1, 2, 2, 0, 0], // 19 if a nonzero then b else c
    [1, 2, 0, 1, 2, 0, 0, 0], // 20 while a nonzero do b
    [1, 2, 4, 1, 1, 1, 0, 0], // 21 put amount c at table p, owner a, line b
    [1, 2, 4, 1, 1, 0, 0, 0], // 22 clear that cell
    [1, 2, 5, 1, 0, 0, 0, 0], // 23 out a to user p
    [1, 2, 5, 6, 7, 0, 0, 0], // 24 grant region a for user p (b: 1 read, 2 write)
    [1, 2, 5, 6, 7, 0, 0, 0], // 25 revoke the same
    [1, 2, 3, 6, 0, 0, 0, 0], // 26 raise variable p by region a
];

// The table.
pub fn table() -> [[u8; 8]; 27]
    ensures { result ≡ kinds_table }
{
    KINDS
}

// Row `at` of the table.
fn row_at(at: usize) -> book::Row
    requires { at < 27 }
    ensures { result ≡ row_of at }
{
    let row = &KINDS[at];
    book::Row {
        cost: row[0],
        sort: row[1],
        p: row[2],
        a: row[3],
        b: row[4],
        c: row[5],
        d: row[6],
        k: row[7],
    }
}

// The row of a kind. A kind past the table is none that there is, as 0 is.
pub fn row_of(kind: u8) -> book::Row
    ensures { result ≡ row_of kind }
{
    let at = kind as usize;
    if 26 < at {
        return row_at(0);
    }
    row_at(at)
}

// The costs of kinds 0 to 26, a column of the table: the script of a run has them, and a run pays by them, so that no node looks at a whole row.
pub fn costs() -> [u32; 27]
    ensures { result ≡ tabulate cost_of 27 }
{
    let table = table();
    let mut costs = [0u32; 27];
    for kind in 0..27 {
        let row = table[kind];
        costs[kind] = row[0] as u32;
    }
    costs
}

// The sort of node `i`, for the few roots and bodies.
pub fn sort_at(file: &[u8], nodes: book::Section, i: usize) -> u8
    requires { Laid file.now × (nodes ≡ section file.now 3) × (i < count file.now 3) }
    ensures { result ≡ sort_of (node_at (decode file.now) i).kind }
{
    let start = nodes.start;
    let row = row_of(file[start + 16 * i]);
    row.sort
}
