//! Functions that do nothing. Their contracts are the laws of `specs/Laws.antt`, so a check proves
//! these.
ghost use Rattle.aig_pairs.specs.Laws.{OnePair, OneMatch, MatchedValues, MatchedWithItself};

/// Bytes are read as one pair at most, or refused for one cause.
pub fn one_pair()
    ensures { OnePair }
{}

/// Two circuits are matched in one way at most, or for one cause in none.
pub fn one_match()
    ensures { OneMatch }
{}

/// An output of the matched circuit has the value that the second circuit's output of the same
/// printed name has, where each input has the bit of the first circuit's input of its name.
pub fn matched_values()
    ensures { MatchedValues }
{}

/// A circuit that is matched with itself stays as it is.
pub fn matched_with_itself()
    ensures { MatchedWithItself }
{}
