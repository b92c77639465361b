ghost use Rattle.std.specs.Prelude.{◌≡◌, ℕ, ◌<◌, List, length, slice_set};
ghost use Rattle.column.specs.Slots.{OutputLaws, CellSlots, put_cell, cell_count};
ghost use Rattle.column.specs.Outputs.{same_list, number_laws, cell_slots, same_lists, cell_laws};

use crate::kind::Kind;

// Where answers of type `A` go.
pub trait Output<A> {
    ghost Slots: { Type 0 };

    ghost slots: { Self → Slots };

    ghost stored: { Slots → ℕ → A → Slots };

    ghost size: { Slots → ℕ };

    ghost place: { Self → Self → Type 0 };

    ghost laws: { OutputLaws stored size place };

    fn len(&self) -> usize
        ensures { result ≡ size (slots self.now) };

    fn put(&mut self, i: usize, answer: A)
        requires { i < size (slots self.old) }
        ensures slots { slots self.new ≡ stored (slots self.old) i answer }
        ensures place { place self.old self.new };
}

// A lent list of numbers.
#[derive(Drop)]
pub struct Numbers<'a, A> {
    pub list: &'a mut [A],
}

impl<'a, A: Copy> Output<A> for Numbers<'a, A> {
    ghost Slots = { List A };

    ghost slots = { λ b. b.list.now };

    ghost stored = { λ s i a. slice_set s i a };

    ghost size = { λ s. length s };

    ghost place = { same_list };

    ghost laws = { number_laws };

    fn len(&self) -> usize {
        self.list.len()
    }

    fn put(&mut self, i: usize, answer: A) {
        self.list[i] = answer;
    }
}

// Lent lists of values and of marks that are true where a value is present; two, since callers lend them so.
#[derive(Drop)]
pub struct Cells<'a, K> {
    pub values: &'a mut [K],
    pub marks: &'a mut [bool],
}

impl<'a, K: Kind> Output<Option<K>> for Cells<'a, K> {
    ghost Slots = { CellSlots K };

    ghost slots = { cell_slots };

    ghost stored = { put_cell };

    ghost size = { cell_count };

    ghost place = { same_lists };

    ghost laws = { cell_laws };

    fn len(&self) -> usize {
        self.values.len().min(self.marks.len())
    }

    fn put(&mut self, i: usize, answer: Option<K>) {
        match answer {
            Some(value) => {
                self.values[i] = value;
                self.marks[i] = true;
            }
            None => self.marks[i] = false,
        }
    }
}
