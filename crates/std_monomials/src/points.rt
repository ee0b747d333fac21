//! The leads of points.
ghost use Rattle.lattice.specs.Family.{Covers};
ghost use Rattle.lattice.specs.Basis.{leads_of, standard_of};
ghost use Rattle.lattice.specs.WorkingLists.{working_set};
ghost use Rattle.node_store.specs.Stores.{Gives, Knows, family};
ghost use Rattle.std_monomials.specs.PointLeads.{point_leads_list};

use crate::monomials::{leads, standard};
use node_store::{Full, Handle, Store};

/// The leads of the points. The error comes only where the store had no slot left for a family that
/// was needed.
pub fn leads_of_points<S: Store>(store: &mut S, points: Handle) -> Result<Handle, Full>
    requires known { Knows (S.state store.old) points }
    requires planned { let s = S.state store.old in
        Covers s.plan (working_set s.vars (point_leads_list s.vars (family s points))) }
    ensures { let s = S.state store.old in
        Gives s (S.state store.new) result (leads_of s.vars (standard_of s.vars (family s points)))
        (working_set s.vars (point_leads_list s.vars (family s points))) }
{
    let monos = standard(store, points)?;
    leads(store, monos, 1)
}
