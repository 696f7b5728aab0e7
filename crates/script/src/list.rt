// A list that a call is lent: the stamps of the timetable, or the stamps or the words of the trace.
ghost use Rattle.std.specs.Prelude.{◌≡◌, ◌+◌, length, take, IfSome};

use crate::command::Row;
use crate::words::word;

// Four numbers more than a timetable or a trace has.
pub const LIST_ROOM: usize = 4100;

// The first `count` of the numbers are lent. A count and no Vec: that takes an allocator along and may fail at each put.
#[derive(Clone, Copy)]
pub struct List {
    numbers: [u64; LIST_ROOM],
    count: usize,
}

impl List {
    // No number.
    pub fn empty() -> List
        ensures { result.count ≡ 0 }
    {
        List {
            numbers: [0; LIST_ROOM],
            count: 0,
        }
    }

    // No number again. What stands behind the count means nothing, so it stays.
    pub fn clear(&mut self)
        ensures empty { self.new.count ≡ 0 }
        ensures kept { self.new.numbers ≡ self.old.numbers }
    {
        self.count = 0;
    }

    // Numbers behind the last; none where there is no room for all of them.
    pub fn put(&mut self, numbers: &[u64]) -> Option<()>
        ensures { IfSome result (λ _. self.new.count ≡ self.old.count + length numbers.now) }
    {
        let end = self.count.checked_add(numbers.len())?;
        self.numbers
            .get_mut(self.count..end)?
            .copy_from_slice(numbers);
        self.count = end;
        Some(())
    }

    // A row of numbers behind the last; none where there is no room for all of them.
    pub fn put_row(&mut self, row: Row) -> Option<()>
        ensures { IfSome result (λ _. self.new.count ≡ self.old.count + row.count) }
    {
        let end = self.count.checked_add(row.count)?;
        let mut number = row.first;
        for place in self.numbers.get_mut(self.count..end)? {
            *place = number;
            number = number.wrapping_add(row.step);
        }
        self.count = end;
        Some(())
    }

    // The numbers that were put there.
    pub fn numbers(&self) -> Option<&[u64]>
        ensures { IfSome result (λ s. s.now ≡ take self.now.count self.now.numbers) }
    {
        self.numbers.get(..self.count)
    }

    // How many they are.
    pub fn len(&self) -> usize
        ensures { result ≡ self.now.count }
    {
        self.count
    }

    // The low 16 bits of each number that was put there, and 0 behind them: the words of a trace.
    pub fn words(&self) -> [u16; LIST_ROOM] {
        let mut words = [0u16; LIST_ROOM];
        for (place, number) in words.iter_mut().zip(self.numbers.iter().take(self.count)) {
            *place = word(*number);
        }
        words
    }
}
