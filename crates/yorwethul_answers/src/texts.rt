//! Texts in the style that is asked for.

use module_answers::{
    NoOutcome, Shader, WriteOutcome, flags_for, write_decimal_within, write_within,
};
use std::alloc::Global;
use yorwethul_input::Style;

/// Writes the module in this style. Where that is not plain, its floats are made decimal first.
pub fn write_in(
    alloc: Global,
    style: Style,
    shader: &mut Shader,
) -> Result<WriteOutcome<String>, NoOutcome> {
    let flags = flags_for(style.explicit_types, !style.plain);
    let bound = style.limits.text;
    if style.plain {
        write_within(alloc, &shader.module, &mut shader.info, flags, bound)
    } else {
        write_decimal_within(alloc, &mut shader.module, &mut shader.info, flags, bound)
    }
}
