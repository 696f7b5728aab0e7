// The bytes of the memory.
use crate::words::word;
use base::word::sum;
use storage::memory::put_word;

// The low 16 bits of each number as a word, from an address on.
pub fn put_words(mem: &mut [u8], address: u16, words: &[u64]) {
    let mut a = address;
    for &w in words {
        put_word(mem, a, word(w));
        a = sum(a, 2);
    }
}

// Two sums: of the bytes, and of that sum as it stood after each byte.
#[derive(Clone, Copy, Default)]
pub struct Totals {
    pub bytes: u64,
    pub places: u64,
}

impl Totals {
    // The sums with one more byte.
    fn with_byte(self, b: u8) -> Totals {
        let bytes = self.bytes.wrapping_add(u64::from(b));
        Totals {
            bytes,
            places: self.places.wrapping_add(bytes),
        }
    }
}

// The sums of all bytes: one byte altered anywhere alters both.
pub fn sums(mem: &[u8]) -> Totals {
    mem.iter()
        .fold(Totals::default(), |totals, &b| totals.with_byte(b))
}
