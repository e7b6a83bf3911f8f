// Plans that are factored with room to spare.
use case_run::run::run;

pub fn show(rt: &impl Print, name: &[u8], text: &[u8]) {
    run(rt, name, text, 16, 16, None);
}

pub fn sizes(rt: &impl Print) {
    show(rt, b"0 by 0", b"7\n0 0 M\n0 0 0\n");
    show(rt, b"0 by 3", b"7\n0 3 M\n0 0 0\n");
    show(rt, b"3 by 0", b"7\n3 0 M\n0 0 0\n");
    show(rt, b"no entries", b"7\n2 2 M\n0 0 0\n");
    show(rt, b"one entry", b"7\n1 1 M\n1 1 3\n0 0 0\n");
    show(
        rt,
        b"more rows than columns",
        b"7\n4 2 M\n1 1 1\n1 2 2\n2 1 3\n3 2 4\n4 1 5\n4 2 6\n0 0 0\n",
    );
    show(
        rt,
        b"more columns than rows",
        b"7\n2 4 M\n1 2 1\n1 4 3\n2 2 2\n2 3 5\n0 0 0\n",
    );
    show(
        rt,
        b"full",
        b"7\n3 3 M\n1 1 1\n1 2 2\n1 3 3\n2 1 4\n2 2 5\n2 3 6\n3 1 1\n3 2 1\n3 3 2\n0 0 0\n",
    );
}

pub fn gaps(rt: &impl Print) {
    show(rt, b"empty rows", b"7\n4 3 M\n2 1 3\n2 3 1\n4 2 5\n0 0 0\n");
    show(
        rt,
        b"empty columns",
        b"7\n3 5 M\n1 2 1\n2 2 2\n2 4 1\n3 4 6\n0 0 0\n",
    );
    show(
        rt,
        b"a row of multiples of p",
        b"7\n3 2 M\n1 1 1\n2 1 7\n2 2 -14\n3 2 1\n0 0 0\n",
    );
}

pub fn elimination(rt: &impl Print) {
    // U has entries where the row of the plan has none; in its own columns the row would close a circle
    show(
        rt,
        b"fill-in",
        b"7\n3 4 M\n1 1 1\n1 2 1\n2 2 1\n2 3 1\n2 4 1\n3 1 1\n3 3 1\n0 0 0\n",
    );
    show(
        rt,
        b"fill-in of fill-in",
        b"7\n4 5 M\n1 1 1\n1 2 1\n2 2 1\n2 3 1\n2 4 1\n2 5 1\n3 1 1\n3 3 1\n4 1 1\n4 4 1\n0 0 0\n",
    );
    // column 2 is reached and cancels
    show(
        rt,
        b"a column cancels",
        b"7\n3 4 M\n1 1 1\n1 2 1\n2 2 1\n2 3 1\n2 4 1\n3 1 1\n3 3 6\n0 0 0\n",
    );
    show(
        rt,
        b"multiples of a row",
        b"7\n3 3 M\n1 1 1\n1 2 2\n1 3 3\n2 1 2\n2 2 4\n2 3 6\n3 1 3\n3 2 6\n3 3 2\n0 0 0\n",
    );
    show(
        rt,
        b"a sum of two rows",
        b"7\n3 3 M\n1 1 1\n1 3 2\n2 2 3\n2 3 1\n3 1 1\n3 2 3\n3 3 3\n0 0 0\n",
    );
    // of two rows with one leftmost column the shorter has it, and the first of two as long; the other takes its next column
    show(
        rt,
        b"the shorter row",
        b"7\n2 3 M\n1 1 1\n1 2 2\n1 3 3\n2 1 4\n0 0 0\n",
    );
    show(
        rt,
        b"the first row",
        b"7\n2 3 M\n1 1 1\n1 2 2\n2 1 4\n2 3 3\n0 0 0\n",
    );
}

// Slip 9: rows that are added to the structural pivots, and the order of them all.
pub fn structure(rt: &impl Print) {
    // the second row takes the first of two columns, and leaves the third row the fourth
    show(
        rt,
        b"two columns to choose from",
        b"7\n3 4 M\n1 1 1\n2 1 1\n2 2 1\n2 3 1\n3 1 1\n3 2 1\n3 4 1\n0 0 0\n",
    );
    // no row is added; the second row leads to the first, and the third could come at any time
    show(
        rt,
        b"the lowest of the free rows",
        b"7\n3 3 M\n1 3 1\n2 2 1\n2 3 1\n3 1 1\n0 0 0\n",
    );
    show(rt, b"two rows crossed", b"7\n2 2 M\n1 2 1\n2 1 1\n0 0 0\n");
    // the third column of the third row would close a circle of three, the fourth does not
    show(
        rt,
        b"a column past a circle",
        b"7\n3 4 M\n1 1 1\n1 2 1\n2 2 1\n2 3 1\n3 1 1\n3 3 1\n3 4 1\n0 0 0\n",
    );
    // the third row leads to the second, which was added
    show(
        rt,
        b"a circle through an added row",
        b"7\n3 3 M\n1 1 1\n2 1 1\n2 2 1\n2 3 1\n3 1 1\n3 2 1\n3 3 2\n0 0 0\n",
    );
    // in its last column the fourth row would close a circle of four, and there its value cancels; so with the fifth
    show(
        rt,
        b"circles of four",
        b"7\n5 5 M\n1 3 1\n1 4 1\n1 5 1\n2 2 1\n2 3 1\n3 1 1\n3 2 1\n4 1 1\n4 4 1\n5 1 1\n5 5 1\n0 0 0\n",
    );
}

pub fn moduli(rt: &impl Print) {
    show(
        rt,
        b"p 2, two rows of three ones",
        b"2\n2 3 M\n1 1 1\n1 2 1\n1 3 1\n2 1 1\n2 2 1\n2 3 1\n0 0 0\n",
    );
    show(
        rt,
        b"p 2, a circle",
        b"2\n3 3 M\n1 1 1\n1 2 1\n2 2 1\n2 3 1\n3 1 1\n3 3 1\n0 0 0\n",
    );
    show(
        rt,
        b"p 65521, a circle",
        b"65521\n3 3 M\n1 1 1\n1 2 1\n2 2 1\n2 3 1\n3 1 1\n3 3 1\n0 0 0\n",
    );
    show(
        rt,
        b"p 65521, large values",
        b"65521\n2 2 M\n1 1 -1\n1 2 65520\n2 1 2\n2 2 -2147483648\n0 0 0\n",
    );
    show(
        rt,
        b"p 4294967291, a circle",
        b"4294967291\n3 3 M\n1 1 1\n1 2 1\n2 2 1\n2 3 1\n3 1 1\n3 3 1\n0 0 0\n",
    );
    // the third row is reduced, and its second value is filled in; the fourth cancels
    show(
        rt,
        b"p 4294967291, large values",
        b"4294967291\n4 4 M\n1 1 -1\n1 2 -2147483648\n2 2 -2\n2 3 2147483647\n2 4 -1\n3 1 -3\n3 3 -1\n4 1 -2\n4 2 -5\n0 0 0\n",
    );
}
