//! Functions that do nothing. Their contracts are the laws of `specs/Laws.antt`, so a check proves
//! these.
ghost use Rattle.program.specs.Duties.{IsLawful, OneIsDue};
ghost use Rattle.circuit_run.specs.Duty.{circuit_duty};
ghost use Rattle.circuit_run.specs.Laws.{DueForExamples, EqualWhereSame, SomeIsDue};

use aig_pairs::matched_values;
use aig_reader::Aig;

/// Words ask for one job at most, and for a job and bytes one outcome, with its text, is due at
/// most.
pub fn one_is_due()
    ensures one { OneIsDue circuit_duty }
    ensures lawful { IsLawful circuit_duty }
{}

/// For a job and bytes that say this circuit to it, one is due at least. Where they say none, their
/// refusal is due.
pub fn some_is_due(aig: &Aig)
    ensures { SomeIsDue aig.now }
{
    let _ = aig;
}

/// In mode equal the line of an output says that it is equal exactly where both circuits' outputs
/// of this name have the same value at each point that is cared for, and else the least point at
/// which they differ.
pub fn equal_where_same()
    ensures { EqualWhereSame }
{
    matched_values();
}

/// What is due for worked files in each mode and with each option.
pub fn due_for_examples()
    ensures { DueForExamples }
{}
