//! Laws of the spellings: the contract of each function is the law, and its body does nothing.
ghost use Rattle.der_reader.specs.Laws.{EachContentHasOneSpelling, EachNumberHasOneContent, NoSpellingIsAFrontOfAnother};

/// No spelling of a value with a given tag is a front of a different one.
pub fn no_spelling_is_a_front_of_another()
    ensures { NoSpellingIsAFrontOfAnother }
{}

/// Each content of less than 4 GiB has exactly one spelling under a tag: its length is written in the shortest way alone.
pub fn each_content_has_one_spelling()
    ensures { EachContentHasOneSpelling }
{}

/// Each number of 32 bits has exactly one content.
pub fn each_number_has_one_content()
    ensures { EachNumberHasOneContent }
{}
