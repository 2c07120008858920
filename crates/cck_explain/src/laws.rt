//! What is proved of the definitions alone.
ghost use Rattle.cck_explain.specs.Key.{PartsAreMaterial};

/// The bytes of the listed parts, one after the other, are the key material: all that is hashed for
/// the key, in order, with and without rows.
pub fn parts_are_material()
    ensures { PartsAreMaterial }
{}
