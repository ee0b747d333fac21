//! Functions that do nothing. Their contracts are the laws of `specs/RuleLaws.antt`, so a check
//! proves these.
ghost use Rattle.unique_table.specs.RuleLaws.{RuleIsSound, SeatsAreSound};

/// Between any two steps the table is sound, with its cache words.
pub fn rule_is_sound()
    ensures { RuleIsSound }
{}

/// So is what each live seat met, and the handles that it knows.
pub fn seats_are_sound()
    ensures { SeatsAreSound }
{}
