// Slip 4: the line of owners, which may follow the line `0 0 0`. Where no plan is named there are two words and no entry, so that the
// line of owners is line 4.
use crate::run::{cells_case, plain_case};

// Without the line every word belongs to customer 1. Of no word the line is the word `owners` alone.
pub fn stated(rt: &impl Print) {
    cells_case(rt, "no line of owners|7\n1 5 M\n0 0 0\n");
    cells_case(rt, "two owners|7\n1 2 M\n0 0 0\nowners 3 2\n");
    cells_case(rt, "owners 0 and 255|7\n1 2 M\n0 0 0\nowners 0 255\n");
    cells_case(rt, "only pads|7\n1 2 M\n0 0 0\nowners 0 0\n");
    cells_case(
        rt,
        "no word, the word owners alone|7\n1 0 M\n0 0 0\nowners\n",
    );
    plain_case(rt, "no word, an owner|7\n1 0 M\n0 0 0\nowners 1\n");
    plain_case(rt, "no word, a space|7\n1 0 M\n0 0 0\nowners \n");
    plain_case(
        rt,
        "two words, the word owners alone|7\n1 2 M\n0 0 0\nowners\n",
    );
}

// Document 01's plan D, where the line of owners is line 15: with it, with an owner too few (3), and with an owner above 255 (16). After
// a refusal the plan is gone too.
pub fn plan_d(rt: &impl Print) {
    cells_case(
        rt,
        "plan D with owners|7\n5 5 M\n1 1 2\n1 3 1\n2 2 3\n2 4 1\n3 1 4\n3 2 3\n3 3 2\n3 4 1\n4 2 1\n4 3 5\n5 5 3\n0 0 0\nowners 1 1 2 2 0\n",
    );
    cells_case(
        rt,
        "plan D with four owners|7\n5 5 M\n1 1 2\n1 3 1\n2 2 3\n2 4 1\n3 1 4\n3 2 3\n3 3 2\n3 4 1\n4 2 1\n4 3 5\n5 5 3\n0 0 0\nowners 1 1 2 2\n",
    );
    cells_case(
        rt,
        "plan D with an owner 256|7\n5 5 M\n1 1 2\n1 3 1\n2 2 3\n2 4 1\n3 1 4\n3 2 3\n3 3 2\n3 4 1\n4 2 1\n4 3 5\n5 5 3\n0 0 0\nowners 1 1 2 256 0\n",
    );
}

// Line 4 of each text is at fault: 3.
pub fn malformed(rt: &impl Print) {
    plain_case(rt, "one owner of two|7\n1 2 M\n0 0 0\nowners 1\n");
    plain_case(rt, "three owners of two|7\n1 2 M\n0 0 0\nowners 1 1 1\n");
    plain_case(
        rt,
        "two spaces before an owner|7\n1 2 M\n0 0 0\nowners 1  1\n",
    );
    plain_case(
        rt,
        "two spaces after the word|7\n1 2 M\n0 0 0\nowners  1 1\n",
    );
    plain_case(
        rt,
        "a space after the owners|7\n1 2 M\n0 0 0\nowners 1 1 \n",
    );
    plain_case(rt, "a space before the word|7\n1 2 M\n0 0 0\n owners 1 1\n");
    plain_case(rt, "owner 01|7\n1 2 M\n0 0 0\nowners 1 01\n");
    plain_case(rt, "owner -1|7\n1 2 M\n0 0 0\nowners 1 -1\n");
    plain_case(rt, "owner +1|7\n1 2 M\n0 0 0\nowners 1 +1\n");
    plain_case(rt, "owner x|7\n1 2 M\n0 0 0\nowners 1 x\n");
    plain_case(
        rt,
        "an owner of eleven digits|7\n1 2 M\n0 0 0\nowners 1 10000000000\n",
    );
    plain_case(rt, "the word owner|7\n1 2 M\n0 0 0\nowner 1 1\n");
    plain_case(rt, "the word Owners|7\n1 2 M\n0 0 0\nOwners 1 1\n");
    plain_case(rt, "the word ownersx|7\n1 2 M\n0 0 0\nownersx 1 1\n");
    plain_case(rt, "no word before the owners|7\n1 2 M\n0 0 0\n1 1\n");
}

// 16, after 3 on that line and before what follows the line.
pub fn too_large(rt: &impl Print) {
    plain_case(rt, "owner 256|7\n1 2 M\n0 0 0\nowners 256 1\n");
    plain_case(rt, "owner 256, the last|7\n1 2 M\n0 0 0\nowners 1 256\n");
    plain_case(
        rt,
        "owner 9999999999|7\n1 2 M\n0 0 0\nowners 1 9999999999\n",
    );
    plain_case(
        rt,
        "owner 4294967297, 1 in 32 bits|7\n1 2 M\n0 0 0\nowners 1 4294967297\n",
    );
    plain_case(rt, "owner 256, then 01|7\n1 2 M\n0 0 0\nowners 256 01\n");
    plain_case(rt, "owner 256 alone of two|7\n1 2 M\n0 0 0\nowners 256\n");
    plain_case(rt, "owner 256, no line feed|7\n1 2 M\n0 0 0\nowners 256 1");
    plain_case(
        rt,
        "owner 256, bytes after the line|7\n1 2 M\n0 0 0\nowners 256 1\nx",
    );
}

// A line without its line feed is 3 there, anything after the line of owners 3 at line 5; the line stands nowhere else.
pub fn ends(rt: &impl Print) {
    plain_case(rt, "owners, no line feed|7\n1 2 M\n0 0 0\nowners 1 1");
    plain_case(rt, "owners twice|7\n1 2 M\n0 0 0\nowners 1 1\nowners 1 1\n");
    plain_case(
        rt,
        "a line feed after the owners|7\n1 2 M\n0 0 0\nowners 1 1\n\n",
    );
    plain_case(rt, "a byte after the owners|7\n1 2 M\n0 0 0\nowners 1 1\nx");
    plain_case(
        rt,
        "a last line after the owners|7\n1 2 M\n0 0 0\nowners 1 1\n0 0 0\n",
    );
    plain_case(rt, "two last lines|7\n1 2 M\n0 0 0\n0 0 0\n");
    plain_case(
        rt,
        "owners before the last line|7\n1 2 M\nowners 1 1\n0 0 0\n",
    );
    plain_case(
        rt,
        "a triple at fault, and an owner|7\n1 2 M\n2 1 1\n0 0 0\nowners 1 256\n",
    );
}
