//! Nodes as words.
ghost use Rattle.std.specs.Prelude.{◌≡◌, ◌≢◌, ◌<◌, ◌≤◌, IfSome, IfNone};
ghost use Rattle.lattice.specs.NodeWords.{node_word, var_of, hi_of};
ghost use Rattle.lattice.specs.declared.limits.TheConstants.{MAX_VARS};
ghost use Rattle.node_store.specs.PackedNodes.{IsPackable, IsPacked};

use crate::store::{Handle, Node};
use lattice::{HANDLE_UNIT, MAX_VARS, TOP_UNIT};

/// The word of a node, whose variable is from 1 to MAX_VARS and whose handles have room in a word.
pub fn pack(n: &Node) -> u64
    requires { IsPackable n.now }
    ensures { result ≡ node_word n.now.var n.now.lo.0 n.now.hi.0 }
{
    n.var as u64 * TOP_UNIT + n.lo.0 as u64 * HANDLE_UNIT + n.hi.0 as u64
}

/// The node with this word, whose high child is not Handle(0); None exactly where there is none.
pub fn unpack(word: u64) -> Option<Node>
    ensures some { IfSome result (IsPacked word) }
    ensures none { IfNone result ((n : Node) → ¬ IsPacked word n) }
{
    let var = word / TOP_UNIT;
    if var < 1 || (MAX_VARS as u64) < var || word % HANDLE_UNIT == 0 {
        return None;
    }
    Some(node_of(word))
}

/// The node with this word, where there is one.
pub fn node_of(word: u64) -> Node
    requires first { 1 ≤ var_of word }
    requires last { var_of word ≤ MAX_VARS }
    requires full { hi_of word ≢ 0 }
    ensures { IsPacked word result }
{
    Node {
        var: (word / TOP_UNIT) as u32,
        lo: Handle((word / HANDLE_UNIT % HANDLE_UNIT) as u32),
        hi: Handle((word % HANDLE_UNIT) as u32),
    }
}
