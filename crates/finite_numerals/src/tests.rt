//! Tests of which numerals are given, and of those that are found by trying, which no float is known
//! to need.

use crate::precision::Precision;
use crate::{double_numeral, half_numeral, single_numeral};
use decimal_numerals::Decimal;

const HALF: Decimal = Decimal {
    negative: false,
    digits: 5,
    exponent: -1,
};

#[test]
fn numerals_are_those_of_rust(rt: HostRuntime) {
    let alloc = rt.alloc();
    let single = single_numeral(alloc, 0x3f00_0000).expect(&rt, "memory");
    assert_eq!(rt; single, Some(HALF));
    let double = double_numeral(alloc, 0x3fe0_0000_0000_0000).expect(&rt, "memory");
    assert_eq!(rt; double, Some(HALF));
    let half = half_numeral(alloc, 0x3800).expect(&rt, "memory");
    assert_eq!(rt; half, Some(HALF));
    let infinite = half_numeral(alloc, 0xfc00).expect(&rt, "memory");
    assert_eq!(rt; infinite, None);
}

#[test]
fn other_numerals_are_found(rt: HostRuntime) {
    let greatest = Precision::Double.numeral_of(true, 0x7fef_ffff_ffff_ffff);
    assert_eq!(rt; greatest.double_bits(), 0xffef_ffff_ffff_ffff);
    let least = Precision::Single.numeral_of(false, 1);
    assert_eq!(rt; least.single_bits(), 1);
    let zero = Precision::Half.numeral_of(false, 0);
    assert_eq!(rt; zero.half_bits(), 0);
}
