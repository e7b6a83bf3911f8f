// The cases of documents 01 and 02 that concern reading, one line each: the name; the number and its detail; p, n, m and the number of
// entries; and how many cells of the starts, the columns, the values and the owners are not 0. Lent lists hold 9s before. Of some plans
// the first cells of each list follow.
#![tactic(auto)]

use run::{cells_case, length_case, long_case, plain_case, room_case};

mod long;
mod owners;
mod print;
mod run;

fn moduli(rt: &impl Print) {
    plain_case(rt, "p 65521|65521\n0 0 M\n0 0 0\n");
    plain_case(rt, "p 2|2\n0 0 M\n0 0 0\n");
    plain_case(rt, "p 0|0\n0 0 M\n0 0 0\n");
    plain_case(rt, "p 1|1\n0 0 M\n0 0 0\n");
    plain_case(rt, "p 65520|65520\n0 0 M\n0 0 0\n");
    plain_case(rt, "p 65522|65522\n0 0 M\n0 0 0\n");
    plain_case(rt, "p of ten digits|9999999999\n0 0 M\n0 0 0\n");
    plain_case(rt, "p of eleven digits|10000000000\n0 0 M\n0 0 0\n");
}

// Slip 10: moduli past the table of divisors.
fn large_moduli(rt: &impl Print) {
    plain_case(rt, "p 65537|65537\n0 0 M\n0 0 0\n");
    plain_case(rt, "p 65539|65539\n0 0 M\n0 0 0\n");
    plain_case(rt, "p 2147483647|2147483647\n0 0 M\n0 0 0\n");
    plain_case(rt, "p 4294967279|4294967279\n0 0 M\n0 0 0\n");
    plain_case(rt, "p 4294967291|4294967291\n0 0 M\n0 0 0\n");
}

fn no_large_moduli(rt: &impl Print) {
    plain_case(rt, "p 66049, 257 by 257|66049\n0 0 M\n0 0 0\n");
    plain_case(rt, "p 67591, 257 by 263|67591\n0 0 M\n0 0 0\n");
    plain_case(
        rt,
        "p 4293001441, 65521 by 65521|4293001441\n0 0 M\n0 0 0\n",
    );
    plain_case(
        rt,
        "p 4294049777, 65521 by 65537|4294049777\n0 0 M\n0 0 0\n",
    );
    plain_case(rt, "p 4294967292|4294967292\n0 0 M\n0 0 0\n");
    plain_case(rt, "p 4294967293|4294967293\n0 0 M\n0 0 0\n");
    plain_case(rt, "p 4294967294|4294967294\n0 0 M\n0 0 0\n");
    plain_case(rt, "p 4294967295|4294967295\n0 0 M\n0 0 0\n");
    plain_case(rt, "p 4294967296|4294967296\n0 0 M\n0 0 0\n");
    plain_case(rt, "p 4294967298, 2 in 32 bits|4294967298\n0 0 M\n0 0 0\n");
    plain_case(rt, "p 4294967311, a prime|4294967311\n0 0 M\n0 0 0\n");
}

fn sizes(rt: &impl Print) {
    plain_case(rt, "words 2048|2\n0 2048 M\n0 0 0\n");
    plain_case(rt, "words 2049|2\n0 2049 M\n0 0 0\n");
    plain_case(rt, "slots 2048|2\n2048 0 M\n0 0 0\n");
    plain_case(rt, "slots 2049|2\n2049 0 M\n0 0 0\n");
    plain_case(rt, "no letter|2\n1 1\n0 0 0\n");
    plain_case(rt, "other letter|2\n1 1 N\n0 0 0\n");
}

fn values(rt: &impl Print) {
    cells_case(rt, "v 2147483647|65521\n1 1 M\n1 1 2147483647\n0 0 0\n");
    plain_case(rt, "v 2147483648|65521\n1 1 M\n1 1 2147483648\n0 0 0\n");
    cells_case(rt, "v -2147483648|65521\n1 1 M\n1 1 -2147483648\n0 0 0\n");
    plain_case(rt, "v -2147483649|65521\n1 1 M\n1 1 -2147483649\n0 0 0\n");
    cells_case(rt, "v 14 of p 7|7\n1 1 M\n1 1 14\n0 0 0\n");
    cells_case(rt, "v -1 of p 7|7\n1 1 M\n1 1 -1\n0 0 0\n");
}

fn values_of_large(rt: &impl Print) {
    cells_case(
        rt,
        "v 2147483647 of p 4294967291|4294967291\n1 1 M\n1 1 2147483647\n0 0 0\n",
    );
    cells_case(
        rt,
        "v -2147483648 of p 4294967291|4294967291\n1 1 M\n1 1 -2147483648\n0 0 0\n",
    );
    cells_case(
        rt,
        "v -1 of p 4294967291|4294967291\n1 1 M\n1 1 -1\n0 0 0\n",
    );
}

// Line 4 of each text is at fault: 3.
fn malformed(rt: &impl Print) {
    plain_case(rt, "two spaces|7\n2 2 M\n1 1 1\n1 2  1\n2 2 1\n0 0 0\n");
    plain_case(rt, "leading zero|7\n2 2 M\n1 1 1\n01 2 1\n2 2 1\n0 0 0\n");
    plain_case(rt, "plus sign|7\n2 2 M\n1 1 1\n1 2 +1\n2 2 1\n0 0 0\n");
    plain_case(rt, "minus zero|7\n2 2 M\n1 1 1\n1 2 -0\n2 2 1\n0 0 0\n");
    plain_case(rt, "minus on j|7\n2 2 M\n1 1 1\n1 -2 1\n2 2 1\n0 0 0\n");
    plain_case(rt, "two fields|7\n2 2 M\n1 1 1\n1 2\n2 2 1\n0 0 0\n");
    plain_case(
        rt,
        "space at the end|7\n2 2 M\n1 1 1\n1 2 1 \n2 2 1\n0 0 0\n",
    );
    plain_case(rt, "empty line|7\n2 2 M\n1 1 1\n\n2 2 1\n0 0 0\n");
    plain_case(
        rt,
        "v of eleven digits|7\n2 2 M\n1 1 1\n1 2 10000000000\n2 2 1\n0 0 0\n",
    );
    plain_case(rt, "0 0 -0|7\n2 2 M\n1 1 1\n0 0 -0\n");
}

// Line 4 of each text is at fault: 4, 5 and 6, in this order.
fn judged(rt: &impl Print) {
    plain_case(rt, "i too large|7\n2 2 M\n1 1 1\n3 1 1\n2 2 1\n0 0 0\n");
    plain_case(
        rt,
        "j too large|7\n2 2 M\n1 1 1\n1 3 2147483648\n2 2 1\n0 0 0\n",
    );
    plain_case(rt, "0 0 5|7\n2 2 M\n1 1 1\n0 0 5\n");
    plain_case(rt, "0 1 0|7\n2 2 M\n1 1 1\n0 1 0\n");
    plain_case(rt, "1 0 0|7\n2 2 M\n1 1 1\n1 0 0\n");
    plain_case(
        rt,
        "repeated|7\n2 2 M\n1 1 1\n1 1 2147483648\n2 2 1\n0 0 0\n",
    );
    plain_case(
        rt,
        "repeated after 0|7\n2 2 M\n1 1 7\n1 1 1\n2 2 1\n0 0 0\n",
    );
    plain_case(
        rt,
        "v too large|7\n2 2 M\n1 1 1\n1 2 2147483648\n2 2 1\n0 0 0\n",
    );
}

// Triples in any order give the plan that they give when they rise.
fn any_order(rt: &impl Print) {
    cells_case(rt, "row falls|7\n2 2 M\n2 1 1\n1 2 2\n2 2 3\n0 0 0\n");
    cells_case(rt, "column falls|7\n2 2 M\n1 2 1\n1 1 2\n2 2 3\n0 0 0\n");
    cells_case(
        rt,
        "row falls after 0|7\n2 2 M\n2 1 7\n1 2 2\n2 2 3\n0 0 0\n",
    );
    cells_case(
        rt,
        "plan D reversed|7\n5 5 M\n5 5 3\n4 3 5\n4 2 1\n3 4 1\n3 3 2\n3 2 3\n3 1 4\n2 4 1\n2 2 3\n1 3 1\n1 1 2\n0 0 0\n",
    );
    cells_case(
        rt,
        "plan D by column|7\n5 5 M\n1 1 2\n3 1 4\n2 2 3\n3 2 3\n4 2 1\n1 3 1\n3 3 2\n4 3 5\n2 4 1\n3 4 1\n5 5 3\n0 0 0\n",
    );
}

// Line 6 of each text has the place of line 3: 5, before 6 and 7.
fn repeated(rt: &impl Print) {
    plain_case(
        rt,
        "repeated far apart|7\n2 2 M\n1 1 1\n1 2 1\n2 2 1\n1 1 1\n0 0 0\n",
    );
    plain_case(
        rt,
        "repeated, row falls|7\n2 2 M\n2 1 1\n1 2 1\n1 1 1\n2 1 1\n0 0 0\n",
    );
    plain_case(
        rt,
        "repeated, 0 first|7\n2 2 M\n2 1 7\n1 2 1\n1 1 1\n2 1 1\n0 0 0\n",
    );
    plain_case(
        rt,
        "repeated, 0 second|7\n2 2 M\n2 1 1\n1 2 1\n1 1 1\n2 1 7\n0 0 0\n",
    );
    plain_case(
        rt,
        "repeated, v too large|7\n2 2 M\n2 1 1\n1 2 1\n1 1 1\n2 1 2147483648\n0 0 0\n",
    );
    plain_case(
        rt,
        "repeated, 3 after 5|7\n2 2 M\n2 1 1\n1 2 1\n1 1 1\n2 1 1\nx\n",
    );
    plain_case(
        rt,
        "two repeated|7\n2 2 M\n2 2 1\n1 1 1\n1 2 1\n2 2 1\n1 1 1\n0 0 0\n",
    );
    room_case(
        rt,
        "repeated, room 3|7\n2 2 M\n2 1 1\n1 2 1\n1 1 1\n2 1 1\n0 0 0\n",
        3,
    );
}

// Lines are judged as they stand, also where a row falls: line 4 or 5 of each text is at fault.
fn judged_as_they_stand(rt: &impl Print) {
    plain_case(
        rt,
        "row falls, no triple|7\n2 2 M\n2 1 1\n1 2\n2 1 1\n0 0 0\n",
    );
    plain_case(
        rt,
        "row falls, j too large|7\n2 2 M\n2 1 1\n1 3 1\n2 1 1\n0 0 0\n",
    );
    plain_case(
        rt,
        "row falls, v too large|7\n2 2 M\n2 1 1\n1 2 2147483648\n2 1 1\n0 0 0\n",
    );
    room_case(
        rt,
        "row falls, room 1|7\n2 2 M\n2 1 1\n1 2 1\n2 1 1\n0 0 0\n",
        1,
    );
    room_case(
        rt,
        "row falls, room 1, a value 0|7\n2 2 M\n2 1 1\n1 2 7\n1 1 1\n0 0 0\n",
        1,
    );
    plain_case(rt, "row falls, no last line|7\n2 2 M\n2 1 1\n1 2 1\n");
    plain_case(
        rt,
        "row falls, no last line feed|7\n2 2 M\n2 1 1\n1 2 1\n0 0 0",
    );
}

fn room(rt: &impl Print) {
    room_case(rt, "room 1|7\n2 2 M\n1 1 1\n1 2 1\n2 2 1\n0 0 0\n", 1);
    room_case(
        rt,
        "room 1, a value 0|7\n2 2 M\n1 1 1\n1 2 7\n2 2 1\n0 0 0\n",
        1,
    );
    room_case(
        rt,
        "room 1, 3 after 7|7\n2 2 M\n1 1 1\n1 2 1\nx\n0 0 0\n",
        1,
    );
    room_case(
        rt,
        "room 1, 6 before 7|7\n2 2 M\n1 1 1\n1 2 2147483648\n0 0 0\n",
        1,
    );
    room_case(rt, "room 0, only zeros|7\n2 2 M\n1 1 7\n1 2 -7\n0 0 0\n", 0);
    room_case(rt, "room 3|7\n2 2 M\n1 1 1\n1 2 1\n2 2 1\n0 0 0\n", 3);
}

fn ends(rt: &impl Print) {
    plain_case(rt, "no text|");
    plain_case(rt, "no line feed|7");
    plain_case(rt, "one line|7\n");
    plain_case(rt, "no second line feed|7\n0 0 M");
    plain_case(rt, "two lines|7\n0 0 M\n");
    plain_case(rt, "no last line feed|7\n0 0 M\n0 0 0");
    plain_case(rt, "a line feed after the last line|7\n0 0 M\n0 0 0\n\n");
    plain_case(rt, "a byte after the last line|7\n0 0 M\n0 0 0\nx");
    plain_case(rt, "no last line|7\n1 1 M\n1 1 1\n");
}

fn lengths(rt: &impl Print) {
    length_case(rt, "starts 2048|7\n0 0 M\n0 0 0\n", 2048, 4, 4, 2048);
    length_case(rt, "starts 2050|7\n0 0 M\n0 0 0\n", 2050, 4, 4, 2048);
    length_case(rt, "columns 3, values 4|x", 2049, 3, 4, 2048);
    length_case(rt, "no room at all|7\n0 0 M\n0 0 0\n", 2049, 0, 0, 2048);
    length_case(rt, "owners 2047|7\n0 0 M\n0 0 0\n", 2049, 4, 4, 2047);
    length_case(rt, "owners 2049|x", 2049, 4, 4, 2049);
    length_case(rt, "no owners lent|7\n0 0 M\n0 0 0\n", 2049, 4, 4, 0);
}

// Document 01's plan D.
fn plan_d(rt: &impl Print) {
    cells_case(
        rt,
        "plan D|7\n5 5 M\n1 1 2\n1 3 1\n2 2 3\n2 4 1\n3 1 4\n3 2 3\n3 3 2\n3 4 1\n4 2 1\n4 3 5\n5 5 3\n0 0 0\n",
    );
}

// A text of 65,536 bytes, and one of a byte more.
fn long_texts(rt: &impl Print) {
    let mut text = [10u8; 65537];
    long::fill(&mut text);
    long_case(rt, "65536 bytes", &text, 65536);
    long_case(rt, "65537 bytes", &text, 65537);
}

// The same text with two lines exchanged, and then with one of them twice, far apart.
fn long_any_order(rt: &impl Print) {
    let mut text = [10u8; 65537];
    long::fill(&mut text);
    long::exchange_ends(&mut text);
    long_case(rt, "65536 bytes, ends exchanged", &text, 65536);
    long::repeat_end(&mut text);
    long_case(rt, "65536 bytes, an end repeated", &text, 65536);
}

fn main(rt: HostRuntime) {
    moduli(&rt);
    large_moduli(&rt);
    no_large_moduli(&rt);
    sizes(&rt);
    values(&rt);
    values_of_large(&rt);
    malformed(&rt);
    judged(&rt);
    any_order(&rt);
    repeated(&rt);
    judged_as_they_stand(&rt);
    room(&rt);
    ends(&rt);
    lengths(&rt);
    plan_d(&rt);
    owners::stated(&rt);
    owners::plan_d(&rt);
    owners::malformed(&rt);
    owners::too_large(&rt);
    owners::ends(&rt);
    long_texts(&rt);
    long_any_order(&rt);
}
