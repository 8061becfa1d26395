//! The bytes of a buffer, and texts among them.
//!
//! The position where a text goes on is passed from function to function, and stays in a register
//! of the processor.

ghost use Rattle.std.specs.Prelude.{◌≡◌, ◌+◌, ◌<◌, ◌≤◌, ◌++◌, ◌∷◌, [], length, take, decimal};
ghost use Rattle.ultra_io.specs.{declared.filled_bytes.TheConstants.BUFFER_BYTES, FilledBytes.{IsWritten, two_digits}};

/// How many bytes a buffer holds.
pub const BUFFER_BYTES: usize = 65536;

/// The two digits of each number below 100, one number after another.
const PAIRS: &[u8; 200] =
    b"00010203040506070809101112131415161718192021222324252627282930313233343536373839404142434445464748495051525354555657585960616263646566676869707172737475767778798081828384858687888990919293949596979899";

/// The bytes of a buffer: the first `filled` of them wait, and the others mean nothing.
#[derive(Drop)]
pub(crate) struct FilledBytes {
    pub(crate) filled: usize,
    pub(crate) bytes: [u8; BUFFER_BYTES],
    ghost within: { filled ≤ BUFFER_BYTES },
}

impl FilledBytes {
    /// No bytes wait.
    #[inline(always)]
    pub(crate) fn new() -> FilledBytes
        ensures { result.filled ≡ 0 }
    {
        FilledBytes {
            filled: 0,
            bytes: [0; BUFFER_BYTES],
        }
    }

    /// The bytes that wait.
    #[inline(always)]
    pub(crate) fn waiting(&self) -> &[u8]
        ensures { result.now ≡ take self.now.filled self.now.bytes }
    {
        &self.bytes[..self.filled]
    }

    /// How many bytes there is room for behind those that wait.
    #[inline(always)]
    pub(crate) fn room(&self) -> usize
        ensures { self.now.filled + result ≡ BUFFER_BYTES }
    {
        BUFFER_BYTES - self.filled
    }

    /// Adds bytes to those that wait.
    #[inline(always)]
    pub(crate) fn add(&mut self, bytes: &[u8])
        requires { self.old.filled + length bytes.now ≤ BUFFER_BYTES }
        ensures { take self.new.filled self.new.bytes ≡
            take self.old.filled self.old.bytes ++ bytes.now }
    {
        let end = self.filled + bytes.len();
        self.bytes[self.filled..end].copy_from_slice(bytes);
        self.filled = end;
    }

    /// Writes bytes at a position, and returns the position after them.
    #[inline(always)]
    pub(crate) fn write<const N: usize>(&mut self, at: usize, bytes: &[u8; N]) -> usize
        requires { at + N ≤ BUFFER_BYTES }
        ensures written { IsWritten bytes.now at self.old.bytes self.new.bytes result }
        ensures behind { result ≡ at + N }
    {
        for index in 0..N {
            self.bytes[at + index] = bytes[index];
        }
        at + N
    }

    /// Writes a number in decimal digits, at most 10, and returns the position after them.
    #[inline(always)]
    pub(crate) fn write_number(&mut self, at: usize, number: u32) -> usize
        requires { at + 10 ≤ BUFFER_BYTES }
        ensures written { IsWritten (decimal number) at self.old.bytes self.new.bytes result }
        ensures few { result ≤ at + 10 }
    {
        // most numbers have one digit or two, which take no call
        if number < 100 {
            self.write_one_or_two(at, number as u8)
        } else {
            self.write_three_or_more(at, number)
        }
    }

    /// Writes a count in decimal digits, at most 20, and returns the position after them.
    #[inline(always)]
    pub(crate) fn write_count(&mut self, at: usize, count: usize) -> usize
        requires { at + 20 ≤ BUFFER_BYTES }
        ensures written { IsWritten (decimal count) at self.old.bytes self.new.bytes result }
        ensures few { result ≤ at + 20 }
    {
        self.write_digits(at, count)
    }

    /// Writes a number of three digits or more, and returns the position after it.
    #[inline(never)]
    fn write_three_or_more(&mut self, at: usize, number: u32) -> usize
        requires three { 100 ≤ number }
        requires room { at + length (decimal number) ≤ BUFFER_BYTES }
        ensures { IsWritten (decimal number) at self.old.bytes self.new.bytes result }
    {
        // most of them have at most six, which take no call
        let front = number / 100;
        let behind = if front < 10000 {
            self.write_up_to_four(at, front)
        } else {
            self.write_digits(at, front as usize)
        };
        self.write_pair(behind, (number % 100) as u8)
    }

    /// Writes decimal digits, two at a time, and returns the position after them.
    #[inline(never)]
    fn write_digits(&mut self, at: usize, number: usize) -> usize
        requires { at + length (decimal number) ≤ BUFFER_BYTES }
        ensures { IsWritten (decimal number) at self.old.bytes self.new.bytes result }
    {
        if number < 100 {
            return self.write_one_or_two(at, number as u8);
        }
        let front = number / 100;
        let behind = if front < 100 {
            self.write_one_or_two(at, front as u8)
        } else {
            self.write_digits(at, front)
        };
        self.write_pair(behind, (number % 100) as u8)
    }

    /// Writes the digits of a number below 10,000, at most four, and returns the position after
    /// them.
    #[inline(always)]
    fn write_up_to_four(&mut self, at: usize, number: u32) -> usize
        requires number { number < 10000 }
        requires room { at + length (decimal number) ≤ BUFFER_BYTES }
        ensures { IsWritten (decimal number) at self.old.bytes self.new.bytes result }
    {
        if number < 100 {
            self.write_one_or_two(at, number as u8)
        } else {
            let behind = self.write_one_or_two(at, (number / 100) as u8);
            self.write_pair(behind, (number % 100) as u8)
        }
    }

    /// Writes the digits of a number below 100, one or two, and returns the position after them.
    #[inline(always)]
    fn write_one_or_two(&mut self, at: usize, number: u8) -> usize
        requires number { number < 100 }
        requires room { at + length (decimal number) ≤ BUFFER_BYTES }
        ensures { IsWritten (decimal number) at self.old.bytes self.new.bytes result }
    {
        if number < 10 {
            self.write_digit(at, number)
        } else {
            self.write_pair(at, number)
        }
    }

    /// Writes a digit, and returns the position after it.
    #[inline(always)]
    fn write_digit(&mut self, at: usize, digit: u8) -> usize
        requires digit { digit < 10 }
        requires room { at < BUFFER_BYTES }
        ensures { IsWritten ((48 + digit) ∷ []) at self.old.bytes self.new.bytes result }
    {
        self.bytes[at] = b'0' + digit;
        at + 1
    }

    /// Writes the two digits of a number below 100, and returns the position after them.
    #[inline(always)]
    fn write_pair(&mut self, at: usize, number: u8) -> usize
        requires number { number < 100 }
        requires room { at + 2 ≤ BUFFER_BYTES }
        ensures { IsWritten (two_digits number) at self.old.bytes self.new.bytes result }
    {
        let [tens, ones] = pair_of(number);
        self.bytes[at] = tens;
        self.bytes[at + 1] = ones;
        at + 2
    }
}

/// The two digits of a number below 100.
#[inline(always)]
fn pair_of(number: u8) -> [u8; 2]
    requires { number < 100 }
    ensures { result ≡ two_digits number }
{
    let first = 2 * number as usize;
    [PAIRS[first], PAIRS[first + 1]]
}
