//! Times of actor lines: seconds since 1970 and an offset from UTC (`git-fast-import`, "Date Formats",
//! "raw").
ghost use Rattle.std.specs.Prelude.{◌≡◌, ◌≤◌, ◌<◌, ◌+◌, ◌*◌, ◌++◌, ◌↔◌, [], ◌∷◌, ℕ, ℤ, length, IfNone, IfSome, IsSome};
ghost use Rattle.std.specs.Prelude.{IsTrue, IsAscii, decimal};
ghost use Rattle.std.specs.Str.Parse.{IsNumeral, starts_with_minus};
ghost use Rattle.gixobj_actor.specs.Date.{IsOffset, DecodesToOffset, DecodesToSeconds, DecodesToTime, IsMalformedTime};
ghost use Rattle.gixobj_actor.specs.Date.{encode_offset, seconds_digits, signed, encode_time, two_digits};
ghost use Rattle.gixobj_hash.specs.Bytes.{space};

use gixobj_hash::split::{are_digits, number_from_digits, split_at_byte};
use gixobj_streams::short::ShortString;
use itoa::Buffer;
use std::marker::Model;

/// A time: seconds since the epoch, which is the start of 1970 in UTC, and an offset from UTC.
///
/// The offset is one that an encoded time can have: a multiple of 60 seconds, at most 99 hours and 59
/// minutes in either direction. Times compare by their seconds first. [`Time::new`] makes one, and
/// [`parse_header`] decodes one.
#[derive(Clone, Copy, Debug, PartialEq, Eq, PartialOrd, Ord, Hash)]
pub struct Time {
    /// Seconds since the epoch, negative before it.
    pub seconds: i64,
    /// The offset in seconds east of UTC, negative in the west.
    pub offset: i32,
    pub ghost full_minutes: { IsOffset offset },
}

/// Initialization
impl Time {
    /// Makes the time of these seconds and this offset, both in seconds.
    ///
    /// Returns `None` unless the offset is a multiple of 60 seconds, at most 99 hours and 59 minutes in
    /// either direction. Allocates nothing.
    pub fn new(seconds: i64, offset: i32) -> Option<Time>
        ensures accepts { IsSome result ↔ IsOffset offset }
        ensures value { IfSome result (λ time. (time.seconds ≡ seconds) × (time.offset ≡ offset)) }
    {
        if offset % 60 == 0 && -MAXIMUM_OFFSET <= offset && offset <= MAXIMUM_OFFSET {
            Some(Time { seconds, offset })
        } else {
            None
        }
    }
}

/// Conversion
impl Time {
    /// Encodes the time into a buffer.
    ///
    /// The encoding has the seconds in decimal, a space, and the offset. The offset is its sign (`+` for
    /// 0), two digits of hours and two of minutes. An encoded time has at most 26 bytes.
    ///
    /// The result borrows the buffer. The contract leaves the contents of the buffer unspecified.
    /// Allocates nothing.
    pub fn to_str<'a>(&self, buf: &'a mut TimeBuf) -> &'a str
        ensures encoded { result.now ≡ encode_time self.now.seconds self.now.offset }
        ensures max_len { length result.now ≤ 26 }
    {
        buf.hold(*self);
        buf.as_str()
    }
}

/// Writing
impl Time {
    /// Appends the encoded time.
    #[inline(always)]
    #[tactic(auto, using(crate::proofs::TimeSizes::is_ascii_append))]
    pub(crate) fn push_encoded(&self, buffer: &mut ShortString)
        requires has_capacity { length buffer.old ≤ 6 }
        ensures encoded { buffer.new ≡ buffer.old ++ encode_time self.now.seconds self.now.offset }
        ensures ascii { IsAscii (encode_time self.now.seconds self.now.offset) }
        ensures max_len { length (encode_time self.now.seconds self.now.offset) ≤ 26 }
    {
        let mut digits = Buffer::new();
        buffer.extend(digits.format(self.seconds).as_bytes());
        buffer.extend(&self.offset_bytes());
    }

    /// Encodes a space and the offset.
    #[inline(always)]
    fn offset_bytes(&self) -> [u8; 6]
        ensures encoded { result ≡ space ∷ encode_offset self.now.offset }
        ensures ascii { IsAscii result }
    {
        let sign = if self.offset < 0 { b'-' } else { b'+' };
        let minutes = self.offset.unsigned_abs() / 60;
        let [hour_tens, hour_ones] = two_digits_of((minutes / 60) as u8);
        let [minute_tens, minute_ones] = two_digits_of((minutes % 60) as u8);
        [b' ', sign, hour_tens, hour_ones, minute_tens, minute_ones]
    }

    /// Returns the length of the encoded time, in bytes.
    #[inline(always)]
    #[tactic(auto, using(crate::proofs::TimeSizes::encode_time_len))]
    pub(crate) fn encoded_len(&self) -> u64
        ensures len { result ≡ length (encode_time self.now.seconds self.now.offset) }
        ensures bounded { result ≤ 27 }
    {
        u64::from(self.seconds < 0) + digit_count(self.seconds.unsigned_abs()) + OFFSET_LEN
    }
}

impl Default for Time {
    ghost use Rattle.std.specs.Prelude.{pos};

    ghost is_default = { λ time. (time.seconds ≡ pos 0) × (time.offset ≡ pos 0) };

    /// Returns the epoch: the start of 1970 in UTC.
    fn default() -> Time {
        Time {
            seconds: 0,
            offset: 0,
        }
    }
}

/// Decodes a time, or returns `None` if the bytes are malformed.
///
/// The seconds are an optional minus and at least one digit, and fit an `i64`. One space follows. The
/// offset is a plus or a minus, two digits of hours, and two digits of minutes up to 59.
/// Allocates nothing.
pub fn parse_header(input: &[u8]) -> Option<Time>
    ensures found { IfSome result (λ time. DecodesToTime input.now time.seconds time.offset) }
    ensures none { IfNone result (IsMalformedTime input.now) }
{
    let (seconds, offset) = split_at_byte(input, b' ')?;
    let seconds = seconds_from_bytes(seconds)?;
    let offset = offset_from_bytes(offset)?;
    Time::new(seconds, offset)
}

/// The maximum offset, 99 hours and 59 minutes, in seconds.
const MAXIMUM_OFFSET: i32 = 359_940;

/// The length of a space and an encoded offset, in bytes.
const OFFSET_LEN: u64 = 6;

/// Returns the number of digits. It tests for ten digits first, which the seconds since 2001 have.
#[inline(always)]
#[tactic(auto, using(crate::proofs::TimeSizes::decimal_len_ten))]
fn digit_count(number: u64) -> u64
    ensures len { result ≡ length (decimal number) }
    ensures bounded { result ≤ 20 }
{
    if 1_000_000_000 <= number && number < 10_000_000_000 {
        10
    } else {
        digits_counted(number)
    }
}

/// Returns the number of digits, counted one by one.
#[tactic(auto, using(crate::proofs::TimeSizes::decimal_len_one, crate::proofs::TimeSizes::decimal_len_succ, crate::proofs::TimeSizes::decimal_len_le_twenty))]
fn digits_counted(number: u64) -> u64
    ensures len { result ≡ length (decimal number) }
    ensures bounded { result ≤ 20 }
{
    let mut count = 1;
    let mut rest = number;
    'digits: while rest >= 10 {
        rest /= 10;
        count += 1;
    }
    count
}

/// Decodes seconds: an optional minus, and then digits.
fn seconds_from_bytes(input: &[u8]) -> Option<i64>
    ensures found { IfSome result (DecodesToSeconds input.now) }
    ensures none { IfNone result ((seconds : ℤ) → ¬ DecodesToSeconds input.now seconds) }
{
    let (is_negative, digits) = split_minus(input);
    if digits.is_empty() || !are_digits(digits) {
        return None;
    }
    let size = number_from_digits(digits)?;
    if is_negative {
        0_i64.checked_sub_unsigned(size)
    } else {
        i64::try_from(size).ok()
    }
}

/// Returns whether the bytes begin with a minus, and the bytes after it.
fn split_minus(input: &[u8]) -> (bool, &[u8])
    ensures sign { result.0 ≡ starts_with_minus input.now }
    ensures digits { result.1.now ≡ seconds_digits input.now }
{
    match input {
        [b'-', digits @ ..] => (true, digits),
        _ => (false, input),
    }
}

/// Decodes an offset, in seconds: a sign, two digits of hours, two of minutes.
fn offset_from_bytes(input: &[u8]) -> Option<i32>
    ensures found { IfSome result (DecodesToOffset input.now) }
    ensures none { IfNone result ((offset : ℤ) → ¬ DecodesToOffset input.now offset) }
{
    let [
        sign @ (b'+' | b'-'),
        hour_tens,
        hour_ones,
        minute_tens,
        minute_ones,
    ] = input
    else {
        return None;
    };
    let hours = number_from_two_digits(*hour_tens, *hour_ones)?;
    let minutes = number_from_two_digits(*minute_tens, *minute_ones)?;
    if minutes > 59 {
        return None;
    }
    Some(offset_of(*sign == b'-', hours, minutes))
}

/// Returns the offset of this sign, hours and minutes, in seconds.
fn offset_of(is_minus: bool, hours: u8, minutes: u8) -> i32
    requires hours { hours < 100 }
    requires minutes { minutes < 60 }
    ensures { result ≡ signed is_minus (60 * (60 * hours + minutes)) }
{
    let size = (60 * (60 * u32::from(hours) + u32::from(minutes))) as i32;
    if is_minus { -size } else { size }
}

/// Decodes a number of two digits.
fn number_from_two_digits(tens: u8, ones: u8) -> Option<u8>
    ensures found { IfSome result (λ number. (number < 100)
        × (two_digits number ≡ tens ∷ ones ∷ [])) }
    ensures none { IfNone result ((number : ℕ) → number < 100
        → ¬ (two_digits number ≡ tens ∷ ones ∷ [])) }
{
    if tens.is_ascii_digit() && ones.is_ascii_digit() {
        Some(10 * (tens - b'0') + (ones - b'0'))
    } else {
        None
    }
}

/// Encodes a number below 100 as two digits.
fn two_digits_of(number: u8) -> [u8; 2]
    requires { number < 100 }
    ensures digits { result ≡ two_digits number }
    ensures ascii { IsAscii result }
{
    [b'0' + number / 10, b'0' + number % 10]
}

/// A buffer for an encoded time, which has at most 26 bytes.
///
/// [`TimeBuf::new`] makes one. [`Time::to_str`] and [`crate::actor::Signature::to_ref`] store a time in it.
#[derive(Drop)]
pub struct TimeBuf {
    buffer: ShortString,
}

impl Model for TimeBuf {
    ghost use Rattle.std.specs.Prelude.{◌≤◌, ℕ, List, length, IsAscii};

    ghost Value = { List ℕ };

    ghost view = { λ it. it.buffer };

    ghost invariant = { λ it. (length it.buffer ≤ 26) × IsAscii it.buffer };
}

impl TimeBuf {
    /// Makes an empty buffer. Allocates nothing.
    pub fn new() -> TimeBuf
        ensures { result ≡ [] }
    {
        TimeBuf {
            buffer: ShortString::new(),
        }
    }

    /// Returns the encoded time in the buffer, or the empty string if it has none. Allocates nothing.
    pub fn as_str(&self) -> &str
        ensures value { result.now ≡ self.now }
        ensures max_len { length result.now ≤ 26 }
    {
        match str::from_utf8(self.buffer.as_bytes()) {
            Ok(string) => string,
            Err(_) => unreachable!(),
        }
    }

    /// Stores the encoded time in the buffer.
    fn hold(&mut self, time: Time)
        ensures { self.new ≡ encode_time time.seconds time.offset }
    {
        let mut buffer = ShortString::new();
        time.push_encoded(&mut buffer);
        *self = TimeBuf { buffer };
    }

    /// Stores the encoded time in the buffer, and returns its bytes.
    pub(crate) fn bytes_of(&mut self, time: Time) -> &[u8]
        ensures { result.now ≡ encode_time time.seconds time.offset }
    {
        self.hold(time);
        self.buffer.as_bytes()
    }
}

impl Default for TimeBuf {
    ghost is_default = { λ it. it ≡ [] };

    fn default() -> TimeBuf {
        TimeBuf::new()
    }
}
