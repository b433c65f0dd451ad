//! Tests of which digits are chosen, of which it is proved alone that they denote the float: floats
//! by their bits, each with the literal that Rust's formatting gives, or that of the greatest `f32`,
//! and none of an infinity and a NaN.

use crate::{double_decimal, half_decimal, push_double, push_half, push_single, single_decimal};

const SINGLES: &[(u32, &str)] = &[
    (0x3f00_0000, "0.5f"),
    (0, "0f"),
    (0x8000_0000, "-0f"),
    (0x7f7f_ffff, "340282346638528850000000000000000000000f"),
    (0xff7f_ffff, "-340282346638528850000000000000000000000f"),
    (0x7f7f_fffe, "340282330000000000000000000000000000000f"),
    (
        0x0000_0001,
        "0.000000000000000000000000000000000000000000001f",
    ),
    (0x4a00_0001, "2097152.3f"),
    (0x3dcc_cccd, "0.1f"),
    (0x4b80_0000, "16777216f"),
    (0xc2f0_0000, "-120f"),
    (0x7f80_0000, ""),
    (0xffc0_0000, ""),
];

const DOUBLES: &[(u64, &str)] = &[
    (0x3fe0_0000_0000_0000, "0.5lf"),
    (0, "0.0lf"),
    (0x8000_0000_0000_0000, "-0.0lf"),
    (0x7fef_ffff_ffff_ffff, "1.7976931348623157e308lf"),
    (1, "5e-324lf"),
    (0x3ff0_0000_0000_0000, "1.0lf"),
    (0x4341_c379_37e0_8000, "1e16lf"),
    (0x3eef_7510_4d55_1d69, "1.5e-5lf"),
    (0xfff0_0000_0000_0000, ""),
    (0x7ff8_0000_0000_0000, ""),
];

const HALVES: &[(u16, &str)] = &[
    (0x3800, "0.5h"),
    (0, "0h"),
    (0x8000, "-0h"),
    (0x7bff, "65504h"),
    (1, "0.000000059604645h"),
    (0x2e66, "0.099975586h"),
    (0x7c00, ""),
    (0x7e00, ""),
];

#[test]
fn singles_are_written_as_by_rust(rt: HostRuntime) {
    for (bits, text) in SINGLES {
        let mut written = String::new(rt.alloc());
        if let Some(decimal) = single_decimal(rt.alloc(), *bits).expect(&rt, "memory") {
            push_single(decimal, &mut written).expect(&rt, "memory");
        }
        assert_eq!(rt; written.as_str(), *text);
    }
}

#[test]
fn doubles_are_written_as_by_rust(rt: HostRuntime) {
    for (bits, text) in DOUBLES {
        let mut written = String::new(rt.alloc());
        if let Some(decimal) = double_decimal(rt.alloc(), *bits).expect(&rt, "memory") {
            push_double(decimal, &mut written).expect(&rt, "memory");
        }
        assert_eq!(rt; written.as_str(), *text);
    }
}

#[test]
fn halves_are_written_as_by_rust(rt: HostRuntime) {
    for (bits, text) in HALVES {
        let mut written = String::new(rt.alloc());
        if let Some(decimal) = half_decimal(rt.alloc(), *bits).expect(&rt, "memory") {
            push_half(decimal, &mut written).expect(&rt, "memory");
        }
        assert_eq!(rt; written.as_str(), *text);
    }
}
