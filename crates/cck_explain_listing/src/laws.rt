//! What is proved of the definitions alone.
ghost use Rattle.cck_explain_listing.specs.Checksum.{OneByteShows};
ghost use Rattle.cck_explain_listing.specs.Fault.{WrongIsPlaced};

/// The first wrong field of bytes is what follows the bytes before its offset.
pub fn wrong_is_placed()
    ensures { WrongIsPlaced }
{}

/// Bytes that differ in one place alone have different checksums.
pub fn one_byte_shows()
    ensures { OneByteShows }
{}
