// What the cases print, on standard output.
ghost use Rattle.std.specs.Prelude.{◌≤◌, length};

use case_print::{outcome, say};
use refusals::Refusal;
use text_plan::Stated;

// A case's name and what reading returned; a plan of zeros where it was refused.
pub fn line(rt: &impl Print, name: &str, read: &Result<Stated, Refusal>) {
    let plan = match read {
        Ok(plan) => *plan,
        Err(_) => Stated {
            p: 0,
            n: 0,
            m: 0,
            count: 0,
        },
    };
    let _ = print!(rt; "{name}:");
    outcome(rt, read);
    let _ = print!(rt; " plan {} {} {} {}", plan.p, plan.n, plan.m, plan.count);
}

// A line with a label and the numbers of a list.
pub fn list_line(rt: &impl Print, label: &[u8], numbers: &[u32]) {
    case_print::list(rt, label, numbers);
    say(rt, b"\n");
}

// A line with a label and the first bytes of a list, so many.
pub fn bytes_line(rt: &impl Print, label: &[u8], bytes: &[u8], count: usize)
    requires { count ≤ length bytes.now }
{
    case_print::first_bytes(rt, label, bytes, count);
    say(rt, b"\n");
}
