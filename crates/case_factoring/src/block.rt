// Slip 11: rows without a structural pivot. Up to 32 of them over up to 32 columns are reduced in a block, more as they are stored;
// what is printed does not tell which way it was. In each plan the first row leads to the second, and the second has the columns that
// are left: there the other rows would close circles.
use crate::plans::show;
use case_run::run::run;

pub fn contents(rt: &impl Print) {
    // both rows are sums of the first two
    show(
        rt,
        b"a block of zeros",
        b"7\n4 4 M\n1 1 1\n1 2 1\n2 2 1\n2 3 1\n2 4 1\n3 1 1\n3 2 2\n3 3 1\n3 4 1\n4 1 2\n4 2 5\n4 3 3\n4 4 3\n0 0 0\n",
    );
    // one of the rows is empty
    show(
        rt,
        b"rows left, but no column",
        b"7\n5 2 M\n1 1 1\n1 2 1\n2 2 1\n3 1 3\n3 2 5\n5 2 4\n0 0 0\n",
    );
    // each row has its pivot to the left of the one before
    show(
        rt,
        b"the last column first",
        b"7\n5 5 M\n1 1 1\n1 2 1\n2 2 1\n2 3 1\n2 4 1\n2 5 1\n3 1 1\n3 3 6\n3 4 6\n4 1 1\n4 3 6\n4 4 1\n4 5 2\n5 1 1\n5 3 3\n5 4 4\n5 5 5\n0 0 0\n",
    );
    show(
        rt,
        b"p 2, four rows left",
        b"2\n6 5 M\n1 1 1\n1 2 1\n2 2 1\n2 3 1\n2 4 1\n2 5 1\n3 1 1\n3 3 1\n3 4 1\n4 1 1\n4 4 1\n5 1 1\n5 3 1\n5 4 1\n5 5 1\n6 1 1\n6 5 1\n0 0 0\n",
    );
    show(
        rt,
        b"p 65521, two rows left",
        b"65521\n4 4 M\n1 1 1\n1 2 1\n2 2 1\n2 3 1\n2 4 1\n3 1 1\n3 3 65519\n3 4 1\n4 1 1\n4 3 2\n4 4 65518\n0 0 0\n",
    );
}

// As many as the block has, and one more. All but three of the rows are empty, and the last is dependent; all but three of the columns
// are empty, and the last is a pivot.
pub fn sizes(rt: &impl Print) {
    show(
        rt,
        b"32 rows left",
        b"7\n34 4 M\n1 1 1\n1 2 1\n2 2 1\n2 3 1\n2 4 1\n3 1 1\n3 3 1\n3 4 2\n20 1 2\n20 3 5\n20 4 1\n34 1 1\n34 3 5\n34 4 2\n0 0 0\n",
    );
    show(
        rt,
        b"33 rows left",
        b"7\n35 4 M\n1 1 1\n1 2 1\n2 2 1\n2 3 1\n2 4 1\n3 1 1\n3 3 1\n3 4 2\n20 1 2\n20 3 5\n20 4 1\n35 1 1\n35 3 5\n35 4 2\n0 0 0\n",
    );
    show(
        rt,
        b"32 columns left",
        b"7\n4 34 M\n1 1 1\n1 2 1\n2 2 1\n2 3 1\n2 20 1\n2 34 1\n3 1 1\n3 20 2\n3 34 1\n4 1 1\n4 3 1\n4 20 5\n4 34 4\n0 0 0\n",
    );
    show(
        rt,
        b"33 columns left",
        b"7\n4 35 M\n1 1 1\n1 2 1\n2 2 1\n2 3 1\n2 20 1\n2 35 1\n3 1 1\n3 20 2\n3 35 1\n4 1 1\n4 3 1\n4 20 5\n4 35 4\n0 0 0\n",
    );
}

// Eight rows and five columns left. One row is dependent by the block, one by the first two rows, and one is empty.
fn eight(rt: &impl Print, name: &[u8], l: u32, u: u32) {
    run(
        rt,
        name,
        b"7\n10 7 M\n1 1 1\n1 2 1\n2 2 1\n2 3 1\n2 4 1\n2 5 1\n2 6 1\n2 7 1\n3 1 1\n3 3 6\n3 5 6\n3 6 1\n3 7 6\n4 1 1\n4 4 6\n4 5 6\n4 6 6\n4 7 2\n5 1 1\n5 3 1\n5 4 1\n5 5 6\n5 6 3\n5 7 5\n6 1 1\n6 3 6\n6 4 6\n6 5 6\n6 6 6\n6 7 6\n7 1 1\n7 4 6\n7 5 3\n7 6 6\n7 7 6\n9 1 1\n9 3 6\n9 4 6\n9 5 6\n9 7 6\n10 1 1\n10 3 6\n10 4 6\n10 5 6\n10 6 6\n10 7 4\n0 0 0\n",
        l,
        u,
        None,
    );
}

fn rooms_of(rt: &impl Print, l: u32, u: u32) {
    let _ = print!(rt; "eight rows left, rooms {l} {u}");
    eight(rt, b"", l, u);
}

// Every room of L up to one more than it takes, 24. The first two rows take 2, the others 3, 3, 4, 2, 4, 0, 3 and 3.
pub fn lower_rooms(rt: &impl Print) {
    for l in 0..26 {
        rooms_of(rt, l, 32);
    }
}

// Every room of U up to one more than it takes, 16. The first two rows take 8, the others 2, 2, 0, 0, 2, 0, 1 and 1.
pub fn upper_rooms(rt: &impl Print) {
    for u in 0..18 {
        rooms_of(rt, 32, u);
    }
}
