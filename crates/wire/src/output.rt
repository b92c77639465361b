ghost use Rattle.wire.specs.Slots.{LentSlots, put_lent, lent_count, lent_slots, same_lent, lent_laws};

use crate::kinds::Crossing;
use column::output::Output;
use std::marker::PhantomData;

// Lists of values and of marks, 0 or 1, that C lends for answers.
#[derive(Drop)]
pub struct LentCells<'a, C, N> {
    pub values: &'a mut [N],
    pub marks: &'a mut [u8],
    pub crossing: PhantomData<C>,
}

impl<'a, C: Crossing> Output<Option<C::Value>> for LentCells<'a, C, C::Numbers> {
    ghost Slots = { LentSlots C.Numbers };

    ghost slots = { lent_slots };

    ghost stored = { put_lent C.Crossing.coding.encoded };

    ghost size = { lent_count };

    ghost place = { same_lent };

    ghost laws = { lent_laws C.Crossing.coding.encoded };

    fn len(&self) -> usize {
        self.values.len().min(self.marks.len())
    }

    fn put(&mut self, i: usize, answer: Option<C::Value>) {
        match answer {
            Some(value) => {
                self.values[i] = C::numbers(value);
                self.marks[i] = 1;
            }
            None => self.marks[i] = 0,
        }
    }
}
