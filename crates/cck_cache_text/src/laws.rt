//! Laws about the definitions. Each is the contract of a function with an empty body.
ghost use Rattle.cck_cache_text.specs.HeaderTests.{OpenCommentIsSeen};

/// A line may begin in a comment, as [`header_tests`](crate::header_tests) counts, if the sign of one is on
/// an earlier line and none ends after that and before the line.
pub fn open_comment_is_seen()
    ensures { OpenCommentIsSeen }
{}
