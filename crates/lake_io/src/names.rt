ghost use Rattle.std.specs.Prelude.{◌≡◌, ℕ, List, Option};
ghost use Rattle.lake_io.specs.Names.{Draws};

use std::marker::Model;

/// Where the numbers of new names come from. It never fails.
pub trait Names {
    /// The numbers that it gave, where they are told.
    ghost drawn: { Self → Option (List ℕ) };

    /// Gives the next number. Nothing is said of which numbers come, nor that they differ.
    fn next(&mut self) -> u128
        ensures { Draws (drawn self.old) (drawn self.new) result };
}

/// Counts on from a first number. After the last `u128` comes 0.
#[derive(Debug, Drop)]
pub struct CountNames {
    first: u128,
    count: u64,
    next: u128,
}

impl Model for CountNames {
    ghost use Rattle.std.specs.Prelude.{◌≡◌, ◌<◌, ◌-◌, ◌^◌};
    ghost use Rattle.lake_io.specs.Names.{CountedNames, number_at};

    ghost Value = { CountedNames };

    ghost view = { λ n. record { first = n.first; count = n.count; next = n.next } };

    ghost invariant = { λ n. n.count < 2 ^ 64 - 1 → n.next ≡ number_at n.first n.count };
}

impl CountNames {
    pub fn new(first: u128) -> CountNames
        ensures { result ≡ record { first = first; count = 0; next = first } }
    {
        CountNames {
            first,
            count: 0,
            next: first,
        }
    }
}

impl Names for CountNames {
    ghost use Rattle.lake_io.specs.Names.{drawn_from, names_after};

    ghost drawn = { drawn_from };

    fn next(&mut self) -> u128
        ensures next { result ≡ self.old.next }
        ensures counts { self.new ≡ names_after self.old }
        ensures draws { Draws (drawn_from self.old) (drawn_from self.new) result }
    {
        let number = self.next;
        self.next = number.wrapping_add(1);
        self.count = self.count.saturating_add(1);
        number
    }
}
