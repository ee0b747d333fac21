//! What a program is.
ghost use Rattle.std.specs.Prelude.{◌≡◌, ◌≤◌, ◌<◌, ◌^◌, All, IfErr, IfOk, [], false, length};
ghost use Rattle.lattice.specs.Counts.{Rose};
ghost use Rattle.watch.specs.Notes.{states_by};
ghost use Rattle.program.specs.Duties.{Due, Duty, IsLawful};
ghost use Rattle.program.specs.Runs.{Answers, GivesNoJob};
ghost use Rattle.program.specs.declared.lines.TheConstants.{LONGEST_MESSAGE, LONGEST_NAME};
ghost use Rattle.program.specs.declared.outcome.Outcome.TheVariants as outcomes;

use crate::outcome::{End, Outcome};
use lattice::Words;
use outside::Sink;
use std::alloc::Global;
use watch::Watch;

/// A program: what is due, how its words are read, and how it answers a job on the bytes of its
/// source.
pub trait Program {
    /// What the words ask for.
    type Job: Drop;

    /// How its runs end that end in none of the ways of each program.
    type Ends: End;

    /// What is due.
    ghost duty: { Self → Duty Self.Job Self.Ends };

    /// What it needs before a run.
    ghost ready: { Self → Type 0 };

    /// What stays as it was.
    ghost keeps: { Self → Self → Type 0 };

    /// What there is after a run whose answer, which was due for the job, was written whole or in
    /// part.
    ghost earned: { Self.Job → Due Self.Ends → Self → Type 0 };

    /// What is true of each job that words ask for.
    ghost fits: { Self.Job → Type 0 };

    /// Does nothing. Its contract is a law: words ask for one job at most, and one thing at most is
    /// due for it.
    fn lawful(&self)
        ensures { IsLawful (duty self.now) };

    /// Its name, with which its line begins.
    fn name(&self) -> &'static str
        ensures name { result.now ≡ (duty self.now).name }
        ensures short { length result.now ≤ LONGEST_NAME };

    /// What its line on usage says.
    fn usage(&self) -> &'static str
        ensures usage { result.now ≡ (duty self.now).usage }
        ensures short { length result.now ≤ LONGEST_MESSAGE };

    /// Its source may give so many bytes.
    fn limit(&self) -> usize
        ensures limit { result ≡ (duty self.now).limit }
        ensures few { result < 2 ^ 32 };

    /// The job that the words ask for, or how the run ends without one.
    fn job_of(&self, alloc: Global, words: &Words) -> Result<Self::Job, Outcome<Self::Ends>>
        ensures asked { IfOk result ((duty self.now).IsAsked words.now) }
        ensures fits { IfOk result fits }
        ensures err { IfErr result (GivesNoJob (duty self.now) words.now) };

    /// Whether the job reads the source.
    fn reads(&self, job: &Self::Job) -> bool
        ensures { result ≡ (duty self.now).reads job.now };

    /// Answers the job on the bytes, writes the answer, tells the watchers of each text of it as
    /// soon as it was written whole, and says how the run ends.
    fn answer<K: Sink>(
        &mut self,
        alloc: Global,
        job: &Self::Job,
        bytes: &[u8],
        out: &mut K,
        watchers: &mut Vec<Box<dyn Watch>>,
    ) -> Outcome<Self::Ends>
        requires ready { ready self.old }
        requires untold { All (λ s. s.told ≡ []) (states_by told patience watchers.old.items) }
        requires fits { fits job.now }
        requires few { length bytes.now ≤ (duty self.old).limit }
        requires unread { (duty self.old).reads job.now ≡ false → bytes.now ≡ [] }
        ensures answers { Answers (duty self.old).way ((duty self.old).IsDue job.now bytes.now)
            (λ due. earned job.now due self.new) (K.held out.old) (K.held out.new)
            (states_by told patience watchers.old.items)
            (states_by told patience watchers.new.items) result }
        ensures keeps { keeps self.old self.new }
        ensures write { result ≡ outcomes.WriteFault → Rose (K.faults out.old) (K.faults out.new) };

    /// Its own ends are told as they are.
    ghost ways: { (s : Self) → (duty s).way ≡ Self.Ends.way };

    /// What is left alone keeps what it is to keep.
    ghost kept: { (s : Self) → keeps s s };
}
