// Adds words and numbers at the end of a line. What has no room is refused whole.
ghost use Rattle.std.specs.Prelude.{◌≡◌, ◌+◌, ◌<◌, ◌≤◌, [], ◌∷◌, ◌++◌, length, decimal};
ghost use Rattle.line.specs.Lines.{text_of, Adds};

use crate::{Full, Line};

#[tactic(auto, using(crate::proofs::Pieces::pieces), unfolding(crate::specs::Lines::text_of))]
impl<const N: usize> Line<N> {
    pub fn new() -> Line<N>
        ensures { text_of result ≡ [] }
    {
        Line {
            bytes: [0; N],
            len: 0,
        }
    }

    pub fn text(&self) -> &[u8]
        ensures { result.now ≡ text_of self.now }
    {
        &self.bytes[..self.len]
    }

    // Adds the word as it is.
    pub fn word(&mut self, word: &[u8]) -> Result<(), Full>
        ensures { Adds N word.now (text_of self.old) (text_of self.new) result }
    {
        if word.len() > N - self.len {
            return Err(Full);
        }
        let end = self.len + word.len();
        let bytes = &mut self.bytes[..];
        bytes[self.len..end].copy_from_slice(word);
        self.len = end;
        Ok(())
    }

    // Adds the number in decimal digits. A short one is added as a word, whose length is known when the program is built:
    // that takes no loop, and no test of the room where the length before it is known as well.
    #[tactic(auto, using(crate::proofs::Decimals::short_decimals), unfolding(crate::specs::Lines::text_of))]
    pub fn number(&mut self, n: u64) -> Result<(), Full>
        ensures { Adds N (decimal n) (text_of self.old) (text_of self.new) result }
    {
        match n {
            0..=9 => self.word(&[b'0' + n as u8]),
            10..=99 => self.word(&[b'0' + (n / 10) as u8, b'0' + (n % 10) as u8]),
            100..=999 => self.word(&[
                b'0' + (n / 100) as u8,
                b'0' + (n / 10 % 10) as u8,
                b'0' + (n % 10) as u8,
            ]),
            _ => self.long_number(n),
        }
    }

    // The same for a number of any width, whose digits are counted first.
    fn long_number(&mut self, n: u64) -> Result<(), Full>
        ensures { Adds N (decimal n) (text_of self.old) (text_of self.new) result }
    {
        let count = width(n);
        if count > N - self.len {
            return Err(Full);
        }
        self.digits(n, count);
        Ok(())
    }

    // Adds a space and the number in decimal digits.
    pub fn field(&mut self, n: u64) -> Result<(), Full>
        ensures { Adds N (32 ∷ decimal n) (text_of self.old) (text_of self.new) result }
    {
        let count = width(n);
        if count >= N - self.len {
            return Err(Full);
        }
        self.put(b' ');
        self.digits(n, count);
        Ok(())
    }

    // Adds the digits of a number for which there is room. The caller has counted them for its test, so they are not
    // counted again.
    fn digits(&mut self, n: u64, count: usize)
        requires count { count ≡ length (decimal n) }
        requires room { self.old.len + count ≤ N }
        ensures { text_of self.new ≡ text_of self.old ++ decimal n }
    {
        let end = self.len + count;
        let bytes = &mut self.bytes[..];
        write_digits(&mut bytes[self.len..end], n);
        self.len = end;
    }

    fn put(&mut self, byte: u8)
        requires { self.old.len < N }
        ensures text { text_of self.new ≡ text_of self.old ++ byte ∷ [] }
        ensures len { self.new.len ≡ self.old.len + 1 }
    {
        self.bytes[self.len] = byte;
        self.len += 1;
    }
}

// How many decimal digits a number has.
#[tactic(auto, using(crate::proofs::Decimals::digits_written))]
fn width(n: u64) -> usize
    ensures { result ≡ length (decimal n) }
{
    if n < 10 { 1 } else { width(n / 10) + 1 }
}

// Writes the decimal digits of a number over bytes that are as many, the last digit first. By hand and no `write!`, of
// which no clause says that it succeeds: what has room is added for sure.
#[tactic(auto, using(crate::proofs::Decimals::digits_written))]
fn write_digits(place: &mut [u8], n: u64)
    requires { length place.old ≡ length (decimal n) }
    ensures { place.new ≡ decimal n }
{
    let last = place.len() - 1;
    if n < 10 {
        place[last] = b'0' + n as u8;
    } else {
        place[last] = b'0' + (n % 10) as u8;
        write_digits(&mut place[..last], n / 10);
    }
}
