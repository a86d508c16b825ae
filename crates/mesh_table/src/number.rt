ghost use Rattle.std.specs.Prelude.{◌≡◌, ℕ, ◌^◌, ◌<◌, ◌≤◌};

use std::marker::Model;

// The number of a slot, of N slots round a ring.
#[derive(Clone, Copy)]
pub(crate) struct SlotNumber<const N: usize> {
    pub(crate) number: usize,
}

impl<const N: usize> Model for SlotNumber<N> {
    ghost Value = { ℕ };

    ghost view = { λ i. i.number };

    ghost invariant = { λ i. (i.number < N) × (N < 2 ^ 32) };

    ghost inverse = { λ n. record { number = n } };
}

impl<const N: usize> SlotNumber<N> {
    ghost use Rattle.mesh_table.specs.Probing.{slot_ahead, steps_between};

    // The slot so many steps on.
    pub(crate) fn ahead(self, steps: usize) -> SlotNumber<N>
        requires { steps ≤ N }
        ensures number { result ≡ slot_ahead N self.entry steps }
        ensures inside { result < N }
    {
        let number = self.number + steps;
        SlotNumber {
            number: if number < N { number } else { number - N },
        }
    }

    // How many steps on from here the other slot is.
    pub(crate) fn steps_to(self, other: SlotNumber<N>) -> usize
        ensures { result ≡ steps_between N self.entry other.entry }
    {
        if other.number < self.number {
            other.number + N - self.number
        } else {
            other.number - self.number
        }
    }
}
