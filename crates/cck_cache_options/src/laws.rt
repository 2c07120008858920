//! Laws of the definitions.
ghost use Rattle.cck_cache_options.specs.Laws.{KeyedInOrder, LongestIsFound, NoneIsResponseFile, PreprocessorIsRead};
ghost use Rattle.cck_cache_options.specs.Parts.{AskedIsRead};
ghost use Rattle.cck_cache_options.specs.Quote.{ReadsBack};

/// A POSIX shell reads quoted arguments back.
pub fn reads_back()
    ensures { ReadsBack }
{}

/// A POSIX shell reads the arguments of the preprocessor back.
pub fn preprocessor_is_read()
    ensures { PreprocessorIsRead }
{}

/// The arguments that count in a key are arguments of the call, in their order.
pub fn keyed_in_order()
    ensures { KeyedInOrder }
{}

/// The row of an argument is one with the longest name of those that the argument fits.
pub fn longest_is_found()
    ensures { LongestIsFound }
{}

/// A call that is cached has no argument but one input, options of the table and their values.
pub fn asked_is_read()
    ensures { AskedIsRead }
{}

/// No argument of a call that is cached is empty, begins with `@`, or has a line feed or a NUL.
pub fn none_is_response_file()
    ensures { NoneIsResponseFile }
{}
