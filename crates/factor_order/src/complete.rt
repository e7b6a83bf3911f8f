// The completion of an order: numbers that are given, then the others below its length, rising.
ghost use Rattle.std.specs.Prelude.{◌≡◌, ◌+◌, ◌≤◌, length, take};
ghost use Rattle.lists.specs.Tabulate.{tabulate};
ghost use Rattle.factor_order.specs.Needs.{Completable};
ghost use Rattle.lists.specs.Stored.{Stored};
ghost use Rattle.factor_order.specs.Completion.{marked, unmarked, AppendReady, Completed};

use lists::{clear_row, index};

// Marks the first k numbers of the list.
fn mark(k: usize, list: &[u32], marks: &mut [u64])
    requires { Completable k list.now marks.old }
    ensures { marks.new ≡ tabulate (length list.now) (marked (take k list.now)) }
{
    for &x in &list[..k] {
        marks[index(x)] = 1;
    }
}

// Writes x at place `at` unless it is marked; gives the next place.
fn append(x: u32, v: u64, at: usize, list: &mut [u32]) -> usize
    requires { at + length (unmarked v x) ≤ length list.old }
    ensures { Stored list.old list.new at result (unmarked v x) }
{
    if v != 0 {
        return at;
    }
    list[at] = x;
    at + 1
}

// Writes the numbers that are not marked after the first k, and clears the marks.
fn append_unmarked(k: usize, list: &mut [u32], marks: &mut [u64])
    requires { AppendReady k list.old marks.old }
    ensures { Completed k list.old list.new marks.new }
{
    let mut at = k;
    for (x, &mark) in marks.iter().enumerate() {
        at = append(x as u32, mark, at, list);
    }
    clear_row(marks);
}

// Completes an order of which the first k numbers are given.
pub fn complete(k: usize, list: &mut [u32], marks: &mut [u64])
    requires { Completable k list.old marks.old }
    ensures { Completed k list.old list.new marks.new }
{
    mark(k, list, marks);
    append_unmarked(k, list, marks);
}
