//! A counter of steps that costs nothing when the program runs.
#![tactic(auto)]

ghost use Rattle.std.specs.Prelude.{◌≡◌, ℕ, ◌+◌, ◌<◌};

use std::marker::Model;
use std::sync::ledger::{Blank, Book, Ledger, Share};

/// How many steps were taken so far. It has no bytes, and only [`Steps::tick`] raises it.
///
/// What a step stands for is said by who ticks: in this project one comparison of a row with a constant.
#[derive(Drop)]
pub struct Steps<L: Ledger> {
    book: Book<L>,
    share: Share<L>,
}

impl<L: Ledger> Model for Steps<L> {
    ghost Value = { ℕ };

    ghost view = { λ s. s.book.total };

    ghost invariant = { λ s. 0 < s.share.parts };
}

impl<L: Ledger> Steps<L> {
    /// A counter at 0, over a ledger that nothing else counts in.
    pub fn new(blank: Blank) -> Steps<L>
        requires name { blank.name ≡ L.name }
        requires parts { blank.parts ≡ L.parts }
        requires some { 0 < blank.parts }
        ensures { result ≡ 0 }
    {
        let (book, share) = blank.open::<L>();
        Steps { book, share }
    }

    /// Takes one step.
    pub fn tick(&mut self)
        ensures { self.new ≡ self.old + 1 }
    {
        self.book.add(&mut self.share, 1);
    }
}

#[cfg(test)]
mod tests {
    use super::*;
    use std::marker::Brand;

    fn tick_twice<L: Ledger>(blank: Blank)
        requires name { blank.name ≡ L.name }
        requires parts { blank.parts ≡ L.parts }
        requires some { 0 < blank.parts }
    {
        let mut steps = Steps::<L>::new(blank);
        steps.tick();
        steps.tick();
    }

    #[test]
    fn ticks_at_a_ledger_of_its_own(rt: HostRuntime) {
        tick_twice::<Brand>(Blank::new(1));
        assert_eq!(rt; size_of::<Steps<Brand>>(), 0, "a counter has no bytes");
    }
}
