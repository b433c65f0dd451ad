//! What is proved of a map of names.

ghost use Rattle.name_maps.specs.Identifiers.{MapsTellTexts};

/// The map of a module under the names of its text tells just the identifiers that this text declares:
/// those of each kind in the order of their declarations, and of each struct those of its members. The
/// text is any whose program tells the interface of the module, as that does which the writer writes.
pub fn maps_tell_texts()
    ensures { MapsTellTexts }
{}
