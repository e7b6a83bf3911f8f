// Numbers that stand behind their like: what a list sorted by row and column shows of repeated places.
ghost use Rattle.std.specs.Prelude.{◌≡◌, length};
ghost use Rattle.grouping.specs.Grouping.{key_of};
ghost use Rattle.grouping.specs.Repeats.{same_at, again};
ghost use Rattle.grouping.specs.Needs.{Numbered, Walkable};

use lists::index;

// Whether two numbers have one row and one column.
fn same_place(rows: &[u32], columns: &[u32], a: u32, b: u32) -> bool
    requires { Numbered (length rows.now) (length columns.now) a b }
    ensures { result ≡ same_at (key_of rows.now) (key_of columns.now) a b }
{
    rows[index(a)] == rows[index(b)] && columns[index(a)] == columns[index(b)]
}

// The least number below `count` that stands behind its like, `count` where there is none.
pub fn first_again(rows: &[u32], columns: &[u32], sorted: &[u32], count: u32) -> u32
    requires { Walkable rows.now columns.now sorted.now }
    ensures { result ≡ again (same_at (key_of rows.now) (key_of columns.now)) count sorted.now }
{
    let mut d = count;
    for pair in sorted.windows(2) {
        if same_place(rows, columns, pair[0], pair[1]) {
            d = d.min(pair[1]);
        }
    }
    d
}
