// What a case changes between reading a plan and factoring it.

// What can be changed. With n, m or the number of entries the lengths that follow from it change too.
#[derive(Clone, Copy, Debug, PartialEq, Eq)]
pub enum Part {
    P,
    N,
    M,
    Entries,
    // the length of one list
    Starts,
    Columns,
    Values,
    R,
    C,
    LStarts,
    LColumns,
    LValues,
    UStarts,
    UColumns,
    UValues,
    Work,
    Owners,
    // the first number of one list of the plan
    FirstStart,
    FirstColumn,
    FirstValue,
}

// What is changed, and to what.
#[derive(Clone, Copy, Debug, PartialEq, Eq)]
pub struct Change {
    pub part: Part,
    pub to: u32,
}

// The number x of a part, unless it is what is changed.
pub fn given(change: Option<Change>, part: Part, x: u32) -> u32 {
    match change {
        Some(change) if change.part == part => change.to,
        _ => x,
    }
}

// Changes the first number of a list.
pub fn put_first(change: Option<Change>, part: Part, list: &mut [u32]) {
    if let Some(first) = list.first_mut() {
        *first = given(change, part, *first);
    }
}
