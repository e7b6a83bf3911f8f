// The lengths of a question's lists.
ghost use Rattle.std.specs.Prelude.{◌≡◌};
ghost use Rattle.call_answer.specs.Calls.{question_lengths};

// Whether y has m values, and x and z have n and m cells.
#[tactic(auto, unfolding(crate::specs::Calls::question_lengths))]
pub fn question_lengths(n: u32, m: u32, y: &[u32], xlen: usize, zlen: usize) -> bool
    ensures { result ≡ question_lengths n m y.now xlen zlen }
{
    y.len() == m as usize && xlen == n as usize && zlen == m as usize
}
