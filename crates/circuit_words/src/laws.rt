//! Functions that do nothing. Their contracts are the laws of `specs/Laws.antt`, so a check proves
//! these.
ghost use Rattle.circuit_words.specs.Laws.{OneJobIsAsked, RefusedAskForNone, WordsAskForJobs};

/// Words ask for one job at most, and words that are refused for none.
pub fn one_job_is_asked()
    ensures one { OneJobIsAsked }
    ensures refused { RefusedAskForNone }
{}

/// There are words that ask for a job, in each mode and with each option, and words that are
/// refused.
pub fn words_ask_for_jobs()
    ensures { WordsAskForJobs }
{}
