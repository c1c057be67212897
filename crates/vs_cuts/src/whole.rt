//! Parts of a whole, and how far the numbers go that weighing adds up and multiplies again and again. These keep within
//! 64 bits without a check of each sum. To stop at a limit takes a branch on a sign, which is as often guessed wrong as
//! right. What is reckoned less often stops at the nearest number that fits, which costs time alone.

ghost use Rattle.std.specs.Prelude.{◌*◌, ◌^◌, ◌≤◌};
ghost use Rattle.std.specs.Int.RustNames.{unsigned_abs};
ghost use Rattle.vs_cuts.specs.Numbers.{IsNear, IsPart};

/// What a whole trip counts, and all weights of a layer together: shares and weights are so many parts of it.
pub const WHOLE: i64 = 1_048_576;

/// How many trips there may be.
pub const MOST_TRIPS: usize = 20_000;

/// How far from 0 the number of a trip may be, such as its multiplier.
pub const MOST_NUMBER: u64 = 100_000_000_000_000;

/// How far from 0 what is lacking of a trip may be: 16 layers run no more of it together.
pub const MOST_LACK: u64 = 16_777_216;

/// The number, or the nearest that fits.
pub fn fitting(number: i128) -> i64 {
    number.clamp(i128::from(i64::MIN), i128::from(i64::MAX)) as i64
}

/// So many parts of a whole of a number, rounded down, or the nearest that fits.
pub fn part_of(number: i64, parts: i64) -> i64 {
    fitting(i128::from(number).saturating_mul(i128::from(parts)) >> 20)
}

/// No more parts than a whole of a number that isn't large.
pub fn small_part_of(number: i64, parts: i64) -> i64
    requires number { IsNear (2 ^ 42) number }
    requires parts { IsPart parts }
    ensures { unsigned_abs result ≤ unsigned_abs number }
{
    number * parts >> 20
}

/// So many parts of a whole of a number where their product is known to be small.
pub fn short_part_of(number: i64, parts: i64) -> i64
    requires { unsigned_abs number * unsigned_abs parts ≤ 2 ^ 62 }
    ensures { IsNear (2 ^ 43) result }
{
    number * parts >> 20
}

/// The number, or the nearest that may be lacking of a trip.
pub(crate) fn as_lack(number: i64) -> i64
    ensures { IsNear MOST_LACK result }
{
    number.max(-(MOST_LACK as i64)).min(MOST_LACK as i64)
}

/// The number, or the nearest that is a part of a whole.
pub fn as_part(number: i64) -> i64
    ensures { IsPart result }
{
    number.max(0).min(WHOLE)
}
