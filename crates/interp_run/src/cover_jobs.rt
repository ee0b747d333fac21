//! The care sets of all outputs: the covers of their sets, as jobs of a pool, and what is found
//! from these.
ghost use Rattle.std.specs.Prelude.{◌≡◌, ◌+◌, ◌<◌, ◌≤◌, ◌^◌, IfOk, IsErrOf, length};
ghost use Rattle.std.specs.List.{flat_map};
ghost use Rattle.lattice.specs.Family.{Covers};
ghost use Rattle.lattice.specs.WorkingLists.{care_list, output_numbers, working_set};
ghost use Rattle.node_store.specs.Stores.{Grows, IsFull};
ghost use Rattle.computed_cache.specs.Cached.{cached_state};
ghost use Rattle.pla_reader.specs.Reading.{description};
ghost use Rattle.interp_run.specs.CoverJobs.{AreAllCovers, cover_count, cover_jobs};
ghost use Rattle.interp_run.specs.Phases.{CaresDone};

use crate::means::Interp;
use bool_poly::SetOps;
use computed_cache::CachedPass;
use cube_build::{care_sets_from, cover, row_cubes, sets_of};
use fork_branches::{Jobs, Pool, SolveRefusal};
use node_store::{Full, Handle, Store};
use pla_reader::Pla;
use set_algebra::ValuedPoints;
use std::alloc::Global;
use std::thread::Threads;

// The covers of all outputs, from the cubes of the rows: those of output 1 first, in the order of
// `sets_of`.
#[derive(Clone, Copy)]
struct CoverJobs<'a> {
    pla: &'a Pla,
    cubes: &'a [Handle],
    ghost many: { length cubes.now ≡ length pla.now.rows },
}

impl Jobs for CoverJobs<'_> {
    ghost tasks = { λ c. cover_jobs (description c.pla.now) c.cubes.now };

    fn count(&self) -> u32 {
        self.pla.outputs * sets_of(self.pla.kind).len() as u32
    }

    fn one<S: Store, O: SetOps<S>>(
        &self,
        store: &mut S,
        _ops: &mut O,
        number: u32,
    ) -> Result<Handle, Full> {
        let sets = sets_of(self.pla.kind);
        let each = sets.len() as u32;
        let output = number / each + 1;
        let set = sets[(number % each) as usize];
        cover(store, self.pla.rows.as_slice(), self.cubes, set, output)
    }
}

// The care sets of all outputs, from all covers.
fn build_cares<S: Store>(
    alloc: Global,
    store: &mut S,
    pla: &Pla,
    covers: &[Handle],
) -> Result<Vec<ValuedPoints>, SolveRefusal>
    requires vars { (S.state store.old).vars ≡ pla.now.inputs }
    requires covers { AreAllCovers (S.state store.old) (description pla.now) covers.now }
    requires planned { let p = pla.now in
        Covers (S.state store.old).plan
        (working_set p.inputs (flat_map (care_list p.inputs p.kind p.rows)
        (output_numbers p.outputs))) }
    ensures grows { Grows (S.state store.old) (S.state store.new) }
    ensures cares { IfOk result (λ cares. CaresDone (S.state store.new)
        (description pla.now) pla.now.outputs cares.items) }
    ensures full { IsErrOf result SolveRefusal.Full
        → IsFull (S.state store.old) (S.state store.new) }
{
    let each = sets_of(pla.kind).len();
    let mut cares = Vec::new(alloc);
    for before in 0..pla.outputs {
        let first = before as usize * each;
        cares.push(care_sets_from(store, pla.kind, &covers[first..first + each])?)?;
    }
    Ok(cares)
}

/// The care sets of all outputs. Each row's cube is built once, by the pass; their unions are jobs
/// of the pool. A cover has one worker at most: its unions stand in a row, so that several workers
/// would do the same ones at the same time.
pub(crate) fn find_cares<R: Threads + Sync, P: Pool>(
    interp: &mut Interp<'_, R, P>,
    store: &mut CachedPass,
    workers: u32,
    pla: &Pla,
) -> Result<Vec<ValuedPoints>, SolveRefusal>
    requires workers { (1 ≤ workers) × (workers ≤ 16) }
    requires room { P.done interp.old.pool.now < 2 ^ 30 }
    requires vars { (cached_state store.old).vars ≡ pla.now.inputs }
    requires planned { let p = pla.now in
        Covers (cached_state store.old).plan
        (working_set p.inputs (flat_map (care_list p.inputs p.kind p.rows)
        (output_numbers p.outputs))) }
    ensures grows { Grows (cached_state store.old) (cached_state store.new) }
    ensures cares { IfOk result (λ cares. CaresDone (cached_state store.new)
        (description pla.now) pla.now.outputs cares.items) }
    ensures same_pool { interp.new.pool.ghost_name ≡ interp.old.pool.ghost_name }
    ensures least { P.done interp.old.pool.now ≤ P.done interp.new.pool.now }
    ensures most { P.done interp.new.pool.now
        ≤ P.done interp.old.pool.now + cover_count (description pla.now) }
    ensures full { IsErrOf result SolveRefusal.Full
        → IsFull (cached_state store.old) (cached_state store.new) }
{
    let cubes = row_cubes(interp.alloc, store, pla)?;
    let jobs = CoverJobs { pla, cubes: &cubes };
    let workers = workers.min(jobs.count().max(1));
    let covers = interp.pool.all(interp.rt, interp.alloc, store, &jobs, interp.gate, workers)?;
    build_cares(interp.alloc, store, pla, &covers)
}
