//! The texts of moments, of bytes and of whole numbers, and what they stand for.
#![tactic(auto)]

mod base64_text;
mod moment_text;
mod number_text;

ghost use Rattle.std.specs.Prelude.{◌≡◌, pos, negsuc, codes, Some, None, [], ◌∷◌};
ghost use Rattle.qe_scalars.specs.Moments.{moment_of};
ghost use Rattle.qe_scalars.specs.Bytes.{bytes_of};
ghost use Rattle.qe_scalars.specs.Numbers.{is_small, is_big, number_within};

pub use base64_text::bytes_in;
pub use moment_text::moment_in;
pub use number_text::{big_in, small_in};

/// Moments as users write them, worked out by hand.
#[tactic(auto, unfolding(jiff::proofs::OnLiterals::jiff_on_literals))]
pub fn moments()
    ensures epoch { moment_of (codes "1970-01-01T00:00:00Z") ≡ Some (pos 0) }
    ensures before { moment_of (codes "1969-12-31T23:59:59.999Z") ≡ Some (negsuc 0) }
    ensures zone { moment_of (codes "2024-02-29T12:00:00+01:00") ≡ Some (pos 1709204400000) }
    ensures dropped { moment_of (codes "1970-01-01T00:00:00.0019Z") ≡ Some (pos 1) }
    ensures one_digit { moment_of (codes "1970-01-01T00:00:00.5-00:00") ≡ Some (pos 500) }
    ensures last { moment_of (codes "9999-12-31T23:59:59.999999999Z") ≡ Some (pos 253402300799999) }
    ensures first { moment_of (codes "0000-01-01T00:00:00Z") ≡ Some (negsuc 62167219199999) }
    ensures past { moment_of (codes "0000-01-01T00:00:00+00:01") ≡ None }
    ensures no_leap { moment_of (codes "2023-02-29T00:00:00Z") ≡ None }
    ensures no_leap_second { moment_of (codes "2016-12-31T23:59:60Z") ≡ None }
    ensures small_letters { moment_of (codes "1970-01-01t00:00:00z") ≡ None }
    ensures no_zone { moment_of (codes "1970-01-01T00:00:00") ≡ None }
    ensures ten_digits { moment_of (codes "1970-01-01T00:00:00.0000000000Z") ≡ None }
    ensures far_zone { moment_of (codes "1970-01-01T00:00:00+00:60") ≡ None }
{}

/// Bytes as text.
#[tactic(auto, unfolding(base64::proofs::OnLiterals::base64_on_literals))]
pub fn bytes()
    ensures two { bytes_of (codes "AQI=") ≡ Some (1 ∷ 2 ∷ []) }
    ensures empty { bytes_of [] ≡ Some [] }
    ensures unpadded { bytes_of (codes "AQI") ≡ None }
    ensures loose { bytes_of (codes "AQJ=") ≡ None }
{}

/// Whole numbers as schemas have them.
pub fn numbers()
    ensures most { number_within is_small (codes "2147483647") ≡ Some (pos 2147483647) }
    ensures past { number_within is_small (codes "2147483648") ≡ None }
    ensures least { number_within is_small (codes "-2147483648") ≡ Some (negsuc 2147483647) }
    ensures big { number_within is_big (codes "2147483648") ≡ Some (pos 2147483648) }
    ensures zeros { number_within is_small (codes "-007") ≡ Some (negsuc 6) }
    ensures minus { number_within is_small (codes "-") ≡ None }
    ensures plus { number_within is_small (codes "+1") ≡ None }
    ensures nothing { number_within is_small [] ≡ None }
{}
