//! What kinds of values have words.
use naga_ir::{BuiltIn, MathFunction, Scalar};
use naga_words::to_wgsl::TryToWgsl;

#[test]
fn kinds_of_values_are_described(rt: HostRuntime) {
    let described = [
        MathFunction::described(),
        BuiltIn::described(),
        Scalar::described(),
    ];
    assert_eq!(rt;
        described,
        ["math function", "builtin value", "scalar type"]
    );
    assert_eq!(rt;
        described,
        [
            MathFunction::DESCRIPTION,
            BuiltIn::DESCRIPTION,
            <Scalar as TryToWgsl>::DESCRIPTION,
        ]
    );
}
