//! The results of two branches.
ghost use Rattle.std.specs.Prelude.{◌≡◌};
ghost use Rattle.fork_branches.specs.Branches.{pair_of};

use node_store::{Full, Handle};

/// Both handles, or Full where one branch found the store full.
pub fn pair_of(lo: Result<Handle, Full>, hi: Result<Handle, Full>) -> Result<(Handle, Handle), Full>
    ensures { result ≡ pair_of lo hi }
{
    match (lo, hi) {
        (Ok(lo), Ok(hi)) => Ok((lo, hi)),
        (Err(full), _) => Err(full),
        (_, Err(full)) => Err(full),
    }
}
