//! What a run finds on its store: the tasks of a phase, as jobs of a pool.
ghost use Rattle.std.specs.Prelude.{◌≡◌, ◌^◌, ◌+◌, ◌<◌, ◌≤◌, IfOk, IsErrOf, OnOk, length};
ghost use Rattle.std.specs.Prelude.{slice_index_or};
ghost use Rattle.std.specs.List.{All, flat_map};
ghost use Rattle.lattice.specs.Family.{AreDisjoint, Covers, union_of};
ghost use Rattle.lattice.specs.Basis.{IsLead, basis_element_of, leads_of, standard_of};
ghost use Rattle.lattice.specs.Rows.{IsConsistent};
ghost use Rattle.lattice.specs.WorkingLists.{staircase_list, working_set};
ghost use Rattle.node_store.specs.Stores.{Gives, Grows, IsFull, Knows, family};
ghost use Rattle.computed_cache.specs.Cached.{cached_state};
ghost use Rattle.pla_reader.specs.Reading.{description};
ghost use Rattle.interp_run.specs.Phases.{AreCares, AreDone, IsPart, IsTask, element_list, jobs_of};
ghost use Rattle.interp_run.specs.Phases.{no_task, part_family, part_list, task_family, task_list};

use crate::means::Interp;
use bool_poly::SetOps;
use computed_cache::CachedPass;
use fork_branches::{Jobs, Pool, SolveRefusal};
use interp_lex::least;
use lattice::Mono;
use node_store::{Full, Handle, Store};
use pla_reader::Pla;
use set_algebra::ValuedPoints;
use std::thread::Threads;
use std_monomials::leads_of_points;
use vanish_basis::basis_element;

/// A part of the answer of an output.
#[derive(Clone, Copy)]
pub(crate) enum Part {
    /// The least polynomial.
    Polynomial,
    /// The leads of the care points.
    Leads,
    /// The element of the basis with a lead.
    Element { lead: Mono },
}

/// A part to be found of an output. The outputs' numbers begin with 1.
#[derive(Clone, Copy)]
pub(crate) struct Task {
    pub output: u32,
    pub part: Part,
}

/// Tasks on a consistent description, with the care sets of its outputs.
#[derive(Clone, Copy)]
pub(crate) struct Tasks<'a> {
    pub pla: &'a Pla,
    pub cares: &'a [ValuedPoints],
    pub list: &'a [Task],
    ghost consistent: { IsConsistent pla.now.inputs pla.now.outputs pla.now.rows },
    ghost are_tasks: { All (IsTask (description pla.now)) list.now },
    ghost many: { length cares.now ≡ pla.now.outputs },
    ghost few: { length list.now < 2 ^ 30 },
}

// The leads of the care points.
fn find_leads<S: Store, O: SetOps<S>>(
    store: &mut S,
    ops: &mut O,
    care: ValuedPoints,
) -> Result<Handle, Full>
    requires ready { O.ready ops.old }
    requires zeros { Knows (S.state store.old) care.zeros }
    requires ones { Knows (S.state store.old) care.ones }
    requires planned { let s = S.state store.old in
        Covers s.plan (working_set s.vars
        (staircase_list s.vars (union_of s.vars (family s care.zeros) (family s care.ones)))) }
    ensures gives { let s = S.state store.old in
        let points = union_of s.vars (family s care.zeros) (family s care.ones) in
        Gives s (S.state store.new) result (leads_of s.vars (standard_of s.vars points))
        (working_set s.vars (staircase_list s.vars points)) }
    ensures ready { O.ready ops.new }
{
    let points = ops.union(store, care.zeros, care.ones)?;
    leads_of_points(store, points)
}

// The element with a lead of the care points.
fn find_element<S: Store, O: SetOps<S>>(
    store: &mut S,
    ops: &mut O,
    care: ValuedPoints,
    lead: Mono,
) -> Result<Handle, Full>
    requires ready { O.ready ops.old }
    requires zeros { Knows (S.state store.old) care.zeros }
    requires ones { Knows (S.state store.old) care.ones }
    requires below { lead < 2 ^ (S.state store.old).vars }
    requires lead { let s = S.state store.old in
        IsLead s.vars (union_of s.vars (family s care.zeros) (family s care.ones)) lead }
    requires planned { let s = S.state store.old in
        Covers s.plan (working_set s.vars
        (element_list s.vars lead (union_of s.vars (family s care.zeros) (family s care.ones)))) }
    ensures gives { let s = S.state store.old in
        let points = union_of s.vars (family s care.zeros) (family s care.ones) in
        Gives s (S.state store.new) result (basis_element_of s.vars lead points)
        (working_set s.vars (element_list s.vars lead points)) }
    ensures ready { O.ready ops.new }
{
    let points = ops.union(store, care.zeros, care.ones)?;
    basis_element(store, ops, lead, points)
}

// A part of the answer on the care points.
fn find_part<S: Store, O: SetOps<S>>(
    store: &mut S,
    ops: &mut O,
    care: ValuedPoints,
    part: Part,
) -> Result<Handle, Full>
    requires ready { O.ready ops.old }
    requires zeros { Knows (S.state store.old) care.zeros }
    requires ones { Knows (S.state store.old) care.ones }
    requires disjoint { let s = S.state store.old in
        AreDisjoint (family s care.zeros) (family s care.ones) }
    requires part { let s = S.state store.old in
        IsPart s.vars (union_of s.vars (family s care.zeros) (family s care.ones)) part }
    requires planned { let s = S.state store.old in
        Covers s.plan (working_set s.vars
        (part_list s.vars (family s care.zeros) (family s care.ones) part)) }
    ensures gives { let s = S.state store.old in
        Gives s (S.state store.new) result
        (part_family s.vars (family s care.zeros) (family s care.ones) part)
        (working_set s.vars (part_list s.vars (family s care.zeros) (family s care.ones) part)) }
    ensures ready { O.ready ops.new }
{
    match part {
        Part::Polynomial => least(store, ops, care.zeros, care.ones),
        Part::Leads => find_leads(store, ops, care),
        Part::Element { lead } => find_element(store, ops, care, lead),
    }
}

impl Tasks<'_> {
    // What the task with this number finds; the first has the number 0.
    fn find<S: Store, O: SetOps<S>>(
        &self,
        store: &mut S,
        ops: &mut O,
        number: usize,
    ) -> Result<Handle, Full>
        requires ready { O.ready ops.old }
        requires below { number < length self.now.list.now }
        requires vars { (S.state store.old).vars ≡ self.now.pla.now.inputs }
        requires cares { AreCares (S.state store.old) (description self.now.pla.now)
            self.now.pla.now.outputs self.now.cares.now }
        requires planned { let d = description self.now.pla.now in
            Covers (S.state store.old).plan
            (working_set d.inputs (task_list d (slice_index_or self.now.list.now number no_task))) }
        ensures gives { let d = description self.now.pla.now in
            let task = slice_index_or self.now.list.now number no_task in
            Gives (S.state store.old) (S.state store.new) result (task_family d task)
            (working_set d.inputs (task_list d task)) }
        ensures ready { O.ready ops.new }
    {
        let task = self.list[number];
        find_part(store, ops, self.cares[task.output as usize - 1], task.part)
    }
}

impl Jobs for Tasks<'_> {
    ghost tasks = { λ t. jobs_of (description t.pla.now) t.cares.now t.list.now };

    fn count(&self) -> u32 {
        self.list.len() as u32
    }

    fn one<S: Store, O: SetOps<S>>(
        &self,
        store: &mut S,
        ops: &mut O,
        number: u32,
    ) -> Result<Handle, Full> {
        self.find(store, ops, number as usize)
    }
}

/// Runs the tasks as jobs of the pool, by so many workers: what each of them finds.
pub(crate) fn run_tasks<R: Threads + Sync, P: Pool>(
    interp: &mut Interp<'_, R, P>,
    store: &mut CachedPass,
    workers: u32,
    tasks: &Tasks,
) -> Result<Vec<Handle>, SolveRefusal>
    requires workers { (1 ≤ workers) × (workers ≤ 16) }
    requires room { P.done interp.old.pool.now < 2 ^ 30 }
    requires vars { (cached_state store.old).vars ≡ tasks.now.pla.now.inputs }
    requires cares { AreCares (cached_state store.old) (description tasks.now.pla.now)
        tasks.now.pla.now.outputs tasks.now.cares.now }
    requires planned { let d = description tasks.now.pla.now in
        Covers (cached_state store.old).plan
        (working_set d.inputs (flat_map (task_list d) tasks.now.list.now)) }
    ensures grows { Grows (cached_state store.old) (cached_state store.new) }
    ensures done { IfOk result (λ found. AreDone (cached_state store.new)
        (description tasks.now.pla.now) tasks.now.list.now found.items) }
    ensures same_pool { interp.new.pool.ghost_name ≡ interp.old.pool.ghost_name }
    ensures jobs { OnOk result (P.done interp.old.pool.now + length tasks.now.list.now
        ≤ P.done interp.new.pool.now) }
    ensures least { P.done interp.old.pool.now ≤ P.done interp.new.pool.now }
    ensures most { P.done interp.new.pool.now
        ≤ P.done interp.old.pool.now + length tasks.now.list.now }
    ensures full { IsErrOf result SolveRefusal.Full
        → IsFull (cached_state store.old) (cached_state store.new) }
{
    interp.pool.all(interp.rt, interp.alloc, store, tasks, interp.gate, workers)
}
