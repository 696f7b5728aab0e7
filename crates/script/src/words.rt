// Numbers of the script as the machine's: their low bits.
ghost use Rattle.std.specs.Prelude.{◌≡◌, ◌%◌};
ghost use Rattle.base.specs.Word.{low16};

// The low 16 bits of a number.
pub fn word(n: u64) -> u16
    ensures { result ≡ low16 n }
{
    (n % 65536) as u16
}

// The low 8 bits of a number.
pub fn byte(n: u64) -> u8
    ensures { result ≡ n % 256 }
{
    (n % 256) as u8
}
