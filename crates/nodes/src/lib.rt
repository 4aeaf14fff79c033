// The check of nodes (refusal 8): each field is as its kind says.
#![tactic(auto)]

ghost use Rattle.std.specs.Prelude.{◌≡◌, ◌&&◌, ◌||◌, ◌+◌, ◌≤◌, eqb, ltb, length, get_or};
ghost use Rattle.book.specs.Bytes.{le16, le32, signed32};
ghost use Rattle.book.specs.Records.{Book};
ghost use Rattle.book.specs.Layout.{count, decode};
ghost use Rattle.book.specs.Kinds.{constant};
ghost use Rattle.book.specs.Refusals.{first_bad, Laid, bad_node, field_fits, is_zero, node_fits};
ghost use Rattle.nodes.specs.Known.{Known, Stands, fields_fit};

// Whether node `n` may name `v` as a child of this sort: a lower number, and the right sort.
fn child_fits(sorts: &[u8; 1024], n: usize, sort: u8, v: usize) -> bool
    requires { n ≤ 1024 }
    ensures { result ≡ (ltb v n && eqb (get_or sorts.now v 0) sort) }
{
    if n <= v {
        return false;
    }
    sorts[v] == sort
}

// Whether a field of node `n`, in this role, may hold `v`. The roles are in the order of how
// often they occur: most fields are not named, and most that are name a child.
fn field_fits(regions: usize, sorts: &[u8; 1024], n: usize, role: u8, v: usize) -> bool
    requires { n ≤ 1024 }
    ensures { (b : Book) → Known b regions sorts.now n → result ≡ field_fits b n role v }
{
    if role < kinds::EXPRESSION {
        return v == 0;
    }
    if role <= kinds::COMMAND {
        return child_fits(sorts, n, role, v);
    }
    if role == kinds::VARIABLE {
        return v < 16;
    }
    if role <= kinds::USER {
        return v < 8;
    }
    if role == kinds::REGION {
        return v < regions;
    }
    if role == kinds::RIGHT {
        return 1 <= v && v <= 2;
    }
    v == 0
}

// Whether the field k at byte `at` is 0 or named.
fn constant_fits(file: &[u8], at: usize, role: u8) -> bool
    requires { at + 4 ≤ length file.now }
    ensures { result ≡ (eqb role constant || is_zero (signed32 (le32 file.now at))) }
{
    if role == kinds::CONSTANT {
        return true;
    }
    numbers::u32_at(file, at) == 0
}

// Whether two fields of 16 bits, the first at byte `at`, are both 0.
fn both_zero(file: &[u8], at: usize) -> bool
    requires { at + 4 ≤ length file.now }
    ensures { result ≡ (eqb (le16 file.now at) 0 && eqb (le16 file.now (at + 2)) 0) }
{
    numbers::u32_at(file, at) == 0
}

// Whether the fields a to d of node `n`, whose record is at byte `at`, are as the row says. A kind that does not name a names none of
// them, and one that does not name c does not name d: these are tested together.
fn fields_fit(
    file: &[u8],
    regions: usize,
    sorts: &[u8; 1024],
    n: usize,
    at: usize,
    row: book::Row,
) -> bool
    requires stands { Stands file.now n at row }
    requires known { Known (decode file.now) regions sorts.now n }
    ensures { result ≡ fields_fit (decode file.now) n row }
{
    if row.a == 0 {
        if !both_zero(file, at + 2) {
            return false;
        }
        return both_zero(file, at + 6);
    }
    if !field_fits(regions, sorts, n, row.a, numbers::u16_at(file, at + 2)) {
        return false;
    }
    if !field_fits(regions, sorts, n, row.b, numbers::u16_at(file, at + 4)) {
        return false;
    }
    if row.c == 0 {
        return both_zero(file, at + 6);
    }
    if !field_fits(regions, sorts, n, row.c, numbers::u16_at(file, at + 6)) {
        return false;
    }
    field_fits(regions, sorts, n, row.d, numbers::u16_at(file, at + 8))
}

// Whether node `n`, whose record is at byte `at`, is of a kind that there is, and each of its fields is as the kind's row says.
fn node_fits(
    file: &[u8],
    regions: usize,
    sorts: &[u8; 1024],
    n: usize,
    at: usize,
    row: book::Row,
) -> bool
    requires stands { Stands file.now n at row }
    requires known { Known (decode file.now) regions sorts.now n }
    ensures { result ≡ node_fits (decode file.now) n }
{
    if row.sort == kinds::NO_KIND {
        return false;
    }
    if !field_fits(regions, sorts, n, row.p, file[at + 1] as usize) {
        return false;
    }
    if !fields_fit(file, regions, sorts, n, at, row) {
        return false;
    }
    if !constant_fits(file, at + 10, row.k) {
        return false;
    }
    numbers::u16_at(file, at + 14) == 0
}

// The first bad node, if there is one. The sorts of the nodes passed are kept for those that name them as children.
pub fn first_bad_node(file: &[u8]) -> Option<usize>
    requires { Laid file.now }
    ensures { result ≡ first_bad (bad_node (decode file.now)) (count file.now 3) }
{
    let regions = book::section_at(file, 1);
    let nodes = book::section_at(file, 3);
    let mut sorts = [kinds::NO_KIND; 1024];
    for node in 0..nodes.count {
        let at = nodes.start + 16 * node;
        let kind = file[at];
        // A kind past the table is bad. With the others alone left, a row is found by its index.
        if 26 < kind {
            return Some(node);
        }
        let row = kinds::row_of(kind);
        if !node_fits(file, regions.count, &sorts, node, at, row) {
            return Some(node);
        }
        sorts[node] = row.sort;
    }
    None
}
