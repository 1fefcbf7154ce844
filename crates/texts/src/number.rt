// Whole numbers and decimals as text.
ghost use Rattle.std.specs.Prelude.{◌≡◌, ◌+◌, ◌-◌, ◌/◌, ◌%◌, ◌^◌, ◌<◌, ◌≤◌, min, ◌++◌};
ghost use Rattle.texts.specs.Held.{held, added};
ghost use Rattle.texts.specs.Valued.{value};
ghost use Rattle.texts.specs.Wide.{signed64, signed128};
ghost use Rattle.texts.specs.Number.{size, count_text, int_text, decimal_text, fixed_text, minus};
ghost use Rattle.texts.specs.Digits.{Written, FirstFilled, Shortens, down};

use crate::Text;

// A 128-bit two's complement number in two halves, as a column's cell has it, so that no caller joins them.
#[derive(Clone, Copy)]
pub struct Wide {
    pub lo: u64,
    pub hi: u64,
}

impl Wide {
    // Both halves as one number.
    fn bits(self) -> u128
        ensures { result ≡ value self }
    {
        (self.hi as u128) << 64 | self.lo as u128
    }
}

// Zero less w, by halves, as cells hold a number of 128 bits: the high half gives one more where the low half borrows.
fn negated(w: Wide) -> Wide
    requires { 0 < w.hi }
    ensures { value result + value w ≡ 2 ^ 128 }
{
    let lo = 0u64.wrapping_sub(w.lo);
    let hi = 0u64.wrapping_sub(w.hi);
    if w.lo == 0 {
        return Wide { lo, hi };
    }
    Wide {
        lo,
        hi: hi.wrapping_sub(1),
    }
}

// The signed number whose 64 bits n has.
pub fn from_bits64(n: u64) -> i64
    ensures { result ≡ signed64 n }
{
    n.cast_signed()
}

// A number divided by ten, and the digit left; one of 64 bits as such, since dividing 128 bits is slow.
fn tenth(n: u128) -> (u128, u8)
    ensures { (result.0 ≡ n / 10) × (result.1 ≡ n % 10) }
{
    if n <= u64::MAX as u128 {
        let n = n as u64;
        return ((n / 10) as u128, (n % 10) as u8);
    }
    (n / 10, (n % 10) as u8)
}

// The digits of a number as bytes of text, the lowest first, and how many there are; zeros stand behind them.
#[derive(Clone, Copy)]
struct Places {
    bytes: [u8; 48],
    count: usize,
}

fn places_of(n: u128) -> Places
    ensures { Written n result }
{
    let mut bytes = [48u8; 48];
    let mut count: usize = 0;
    let mut rest = n;
    // the loop ends with the digits, whose count is not known before
    while 0 < rest {
        let (above, digit) = tenth(rest);
        bytes[count] = 48 + digit;
        rest = above;
        count += 1;
    }
    Places { bytes, count }
}

// The lowest place below `scale` that is no zero, or `scale`.
fn first_filled(places: [u8; 48], scale: usize) -> usize
    requires { scale ≤ 48 }
    ensures { FirstFilled places scale result }
{
    places[..scale]
        .iter()
        .position(|digit| *digit != 48)
        .unwrap_or(scale)
}

impl Text {
    // A minus sign, or nothing.
    fn sign(negative: bool) -> Text
        ensures { (result ≡ held (minus negative)) × (result.len ≤ 1) }
    {
        if negative {
            return Text::empty().with(b'-');
        }
        Text::empty()
    }

    // The text with the places from `top` down to `low` behind it, stored in place: `with` would copy the text for each.
    fn with_places(self, places: [u8; 48], low: usize, top: usize) -> Text
        requires { (low ≤ top) × (top ≤ 48) × (self.len + (top - low) ≤ 48) }
        ensures { (result ≡ added self (down places low (top - low))) × (result.len ≡ self.len + (top - low)) }
    {
        let mut bytes = self.bytes;
        let mut len = self.len;
        for i in (low..top).rev() {
            bytes[len] = places[i];
            len += 1;
        }
        Text { bytes, len }
    }
}

// A number in fixed point by its places: those down to the point, then those below up to the last that is no zero.
fn placed_text(negative: bool, n: u128, scale: usize) -> Text
    requires { scale ≤ 38 }
    ensures { result ≡ held (minus negative ++ fixed_text n scale) }
{
    let p = places_of(n);
    let places = p.bytes;
    let top = p.count.max(scale + 1);
    let low = first_filled(places, scale);
    let whole = Text::sign(negative).with_places(places, scale, top);
    if low == scale {
        return whole;
    }
    whole.with(b'.').with_places(places, low, scale)
}

// A number less trailing zeros of its fraction, and how many places of that are left.
#[derive(Clone, Copy)]
struct Shortened {
    rest: u64,
    scale: usize,
}

fn without_zeros(n: u64, scale: usize) -> Shortened
    ensures { Shortens n scale result }
{
    let mut rest = n;
    for left in (0..scale).rev() {
        if rest % 10 != 0 {
            return Shortened {
                rest,
                scale: left + 1,
            };
        }
        rest /= 10;
    }
    Shortened { rest, scale: 0 }
}

// How many digits a number is written with.
fn size_of(n: u64) -> usize
    ensures { (result ≡ size n) × (result ≤ 20) }
{
    match n.checked_ilog10() {
        Some(highest) => highest as usize + 1,
        None => 1,
    }
}

// The sign and a whole number, its digits put in their places from the last on.
fn whole_text(negative: bool, n: u64) -> Text
    ensures { result ≡ held (minus negative ++ count_text n) }
{
    let t = Text::sign(negative);
    let first = t.len;
    let mut bytes = t.bytes;
    let len = first + size_of(n);
    let mut rest = n;
    for at in (first..len).rev() {
        bytes[at] = 48 + (rest % 10) as u8;
        rest /= 10;
    }
    Text { bytes, len }
}

// The sign and the number in fixed point; a number of 64 bits without a fraction is a whole number.
fn fixed_text(negative: bool, n: u128, scale: usize) -> Text
    requires { scale ≤ 38 }
    ensures { result ≡ held (minus negative ++ fixed_text n scale) }
{
    if n <= u64::MAX as u128 {
        let t = without_zeros(n as u64, scale);
        if t.scale == 0 {
            return whole_text(negative, t.rest);
        }
    }
    placed_text(negative, n, scale)
}

pub fn count_text(value: u64) -> Text
    ensures { result ≡ held (count_text value) }
{
    whole_text(false, value)
}

pub fn int_text(value: i64) -> Text
    ensures { result ≡ held (int_text value) }
{
    whole_text(value < 0, value.unsigned_abs())
}

// A scale above 38 is taken as 38: a decimal of 128 bits has no more digits behind its first.
fn scale_of(scale: u8) -> usize
    ensures { result ≡ min scale 38 }
{
    scale.min(38) as usize
}

pub fn decimal_text(w: Wide, scale: u8) -> Text
    ensures { result ≡ held (decimal_text (signed128 (value w)) (min scale 38)) }
{
    let places = scale_of(scale);
    if w.hi < 9223372036854775808 {
        return fixed_text(false, w.bits(), places);
    }
    fixed_text(true, negated(w).bits(), places)
}
