// Parts of a lent text.
ghost use Rattle.std.specs.Prelude.{◌≡◌, ◌≤◌, length};
ghost use Rattle.text.specs.Text.{find, holds, head, rest};

// The index of the first byte b, or the length where there is none: the definition's number, and no Option, since what stands before the end is
// all of the text.
fn find(s: &[u8], b: u8) -> usize
    ensures { (result ≡ find s.now b) × (result ≤ length s.now) }
{
    s.iter().position(|x| *x == b).unwrap_or(s.len())
}

// The byte stands in the text.
#[tactic(auto, using(crate::proofs::Finding::holds_any))]
pub fn holds_byte(s: &[u8], b: u8) -> bool
    ensures { result ≡ holds s.now b }
{
    s.contains(&b)
}

// What stands before the first b: a part of what was lent.
pub fn head<'a>(s: &'a [u8], b: u8) -> &'a [u8]
    ensures { result.now ≡ head s.now b }
{
    let n = find(s, b);
    &s[..n]
}

// What stands after the first b: a part of what was lent, empty where there is no b.
pub fn rest<'a>(s: &'a [u8], b: u8) -> &'a [u8]
    ensures { result.now ≡ rest s.now b }
{
    let n = find(s, b);
    if n < s.len() {
        return &s[n + 1..];
    }
    &s[n..]
}
