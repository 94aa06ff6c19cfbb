//! Slots that hold codes, probed by open addressing. A slot is 0 where it is free, and else a code
//! and 1.

ghost use Rattle.std.specs.Prelude.{◌≡◌, ℕ, suc, ◌+◌, ◌-◌, ◌^◌, ◌<◌, ◌≤◌, Bool, true, false};
ghost use Rattle.std.specs.Prelude.{length, slice_index};
ghost use Rattle.vortex_codes.specs.Slots.{Passed, Walked, IsFilled, IsPlaced, free_count};

/// Tells a code that is sought from others.
pub(crate) trait Sought {
    /// The answer at each code.
    ghost finds: { Self → ℕ → Bool };

    /// Where the answer may be asked for.
    ghost knows: { Self → ℕ → Type 0 };

    fn is(&self, code: u32) -> bool
        requires { knows self.now code }
        ensures { result ≡ finds self.now code };
}

/// No code is sought.
#[derive(Clone, Copy)]
pub(crate) struct Never;

impl Sought for Never {
    ghost finds = { λ s c. false };

    ghost knows = { λ s c. Unit {0} };

    fn is(&self, _code: u32) -> bool {
        false
    }
}

/// The first slot from `from` on that is free or holds what is sought, or `to`.
#[inline(always)]
fn scan<S: Sought>(slots: &[u32], from: usize, to: usize, sought: &S) -> usize
    requires order { from ≤ to }
    requires in_range { to ≤ length slots.now }
    requires known { (q c : ℕ) → slice_index slots.now q ≡ suc c → S.knows sought.now c }
    ensures from_on { from ≤ result }
    ensures within { result ≤ to }
    ensures passed { Passed (S.finds sought.now) slots.now from result }
    ensures stops { result < to → (c : ℕ) → slice_index slots.now result ≡ suc c
        → S.finds sought.now c ≡ true }
{
    for pos in from..to {
        let slot = slots[pos];
        if slot == 0 || sought.is(slot - 1) {
            return pos;
        }
    }
    to
}

/// The first slot that is free or holds what is sought, in a walk round the slots from `start`, or
/// their number.
#[inline(always)]
pub(crate) fn walk<S: Sought>(slots: &[u32], start: usize, sought: &S) -> usize
    requires in_range { start ≤ length slots.now }
    requires known { (q c : ℕ) → slice_index slots.now q ≡ suc c → S.knows sought.now c }
    ensures within { result ≤ length slots.now }
    ensures walked { Walked (S.finds sought.now) slots.now start result }
    ensures stops { result < length slots.now → (c : ℕ) → slice_index slots.now result ≡ suc c
        → S.finds sought.now c ≡ true }
{
    let end = slots.len();
    let at = scan(slots, start, end, sought);
    if at < end {
        return at;
    }
    let at = scan(slots, 0, start, sought);
    if at < start { at } else { end }
}

/// Puts a code into the first free slot of the walk from `start`, and tells the slot.
#[inline(always)]
pub(crate) fn place(slots: &mut [u32], start: usize, code: u32) -> usize
    requires in_range { start ≤ length slots.old }
    requires fits { code + 1 < 2 ^ 32 }
    requires free { 0 < free_count slots.old }
    ensures slot { result < length slots.old }
    ensures more { IsFilled slots.old slots.new code }
    ensures placed { IsPlaced slots.new start code }
    ensures free { free_count slots.new + 1 ≡ free_count slots.old }
{
    let at = walk(slots, start, &Never);
    slots[at] = code + 1;
    at
}
