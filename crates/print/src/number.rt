// Decimal numbers, by two and four digits at a time: one division by 10,000 for a row number of five to eight digits.
ghost use Rattle.std.specs.Prelude.{◌∷◌, [], ◌++◌, ◌<◌, ◌≤◌, ◌+◌, length};
ghost use Rattle.print.specs.Numbers.{digit, pair, four, decimal};
ghost use Rattle.print.specs.Put.{Wrote};
ghost use Rattle.types.specs.Texts.{bytes};

use super::put::put_byte;

fn put_digit(buf: &mut [u8], at: usize, n: u8) -> usize
    requires { (n < 10) × (at < length buf.old) }
    ensures { Wrote buf.old at (digit n ∷ []) buf.new result }
{
    put_byte(buf, at, b'0' + n)
}

// Exactly two digits, and below exactly four, with zeros in front.
fn put_pair(buf: &mut [u8], at: usize, n: u8) -> usize
    requires { (n < 100) × (at + 2 ≤ length buf.old) }
    ensures { Wrote buf.old at (pair n) buf.new result }
{
    let i = put_digit(buf, at, n / 10);
    put_digit(buf, i, n % 10)
}

fn put_four(buf: &mut [u8], at: usize, n: u16) -> usize
    requires { (n < 10000) × (at + 4 ≤ length buf.old) }
    ensures { Wrote buf.old at (four n) buf.new result }
{
    let i = put_pair(buf, at, (n / 100) as u8);
    put_pair(buf, i, (n % 100) as u8)
}

// A number of at most four digits, with no zeros in front.
pub fn put_up_to_four(buf: &mut [u8], at: usize, n: u16) -> usize
    requires { (n < 10000) × (at + 4 ≤ length buf.old) }
    ensures { Wrote buf.old at (decimal n) buf.new result }
{
    if n < 10 {
        return put_digit(buf, at, n as u8);
    }
    if n < 100 {
        return put_pair(buf, at, n as u8);
    }
    if n < 1000 {
        let i = put_digit(buf, at, (n / 100) as u8);
        return put_pair(buf, i, (n % 100) as u8);
    }
    put_four(buf, at, n)
}

// Any number, which has at most 20 digits: its last four stand behind all others.
pub fn put_number(buf: &mut [u8], at: usize, n: u64) -> usize
    requires { at + 20 ≤ length buf.old }
    ensures wrote { Wrote buf.old at (decimal n) buf.new result }
    ensures upper_bound { result ≤ at + 20 }
{
    if n < 10000 {
        return put_up_to_four(buf, at, n as u16);
    }
    let i = put_number(buf, at, n / 10000);
    put_four(buf, i, (n % 10000) as u16)
}

// A field that is a number of at most three digits, with the comma in front of it. Each row has at least one byte more behind it.
pub fn put_short_field(buf: &mut [u8], at: usize, n: u8) -> usize
    requires { at + 5 ≤ length buf.old }
    ensures wrote { Wrote buf.old at (bytes "," ++ decimal n) buf.new result }
    ensures upper_bound { result ≤ at + 4 }
{
    let i = put_byte(buf, at, b',');
    put_up_to_four(buf, i, n as u16)
}

pub fn put_long_field(buf: &mut [u8], at: usize, n: u64) -> usize
    requires { at + 21 ≤ length buf.old }
    ensures wrote { Wrote buf.old at (bytes "," ++ decimal n) buf.new result }
    ensures upper_bound { result ≤ at + 21 }
{
    let i = put_byte(buf, at, b',');
    put_number(buf, i, n)
}
