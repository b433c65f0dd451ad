//! What the spelling of a type is read as.

ghost use Rattle.naga_form.specs.Laws.{TextOfAHandle, TextOfAnInner, TextIsKnown, RefusedIsUnknown};
ghost use Rattle.naga_form.specs.Laws.{FormsAreTypes, FormsAreRead, AlikeItself, AlikeBack};
ghost use Rattle.naga_form.specs.Laws.{AlikeThrough, AlikeButStride, AlikeByNumbers};

use wgsl_text::{one_reading_of_a_type, text_of_joined};

/// Where a type has a form, its text under these names is its tree as printed, and no other
/// text; and nothing of it is refused.
pub fn text_of_a_form()
    ensures type_ { TextOfAHandle }
    ensures inner { TextOfAnInner }
    ensures only { TextIsKnown }
    ensures refused { RefusedIsUnknown }
{
    text_of_joined();
}

/// Where a type has a form and each struct and override has an identifier for a name, its tree is a
/// type of the grammar, so that its text is read as that tree and no other.
pub fn forms_are_types()
    ensures form { FormsAreTypes }
    ensures reading { FormsAreRead }
{
    one_reading_of_a_type();
}

/// Being alike is an equivalence of types, and arrays that differ in stride alone are alike. Where
/// no type is a pointer in the space of handles, two types of which neither is a struct by itself
/// are alike exactly if the numbers that tell them are the same.
pub fn alike_types()
    ensures itself { AlikeItself }
    ensures back { AlikeBack }
    ensures through { AlikeThrough }
    ensures stride { AlikeButStride }
    ensures numbers { AlikeByNumbers }
{}
