// The lengths of a call's lists with slot values.
ghost use Rattle.std.specs.Prelude.{◌≡◌};
ghost use Rattle.call_slots.specs.Calls.{slot_lengths};

// Whether there are m owners and n slot values, and s and w have m and n cells.
#[tactic(auto, unfolding(crate::specs::Calls::slot_lengths))]
pub fn slot_lengths(n: u32, m: u32, k: usize, h: &[u32], slen: usize, wlen: usize) -> bool
    ensures { result ≡ slot_lengths n m k h.now slen wlen }
{
    k == m as usize && h.len() == n as usize && slen == m as usize && wlen == n as usize
}
