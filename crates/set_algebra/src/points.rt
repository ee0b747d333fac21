//! Points with their values.
use node_store::Handle;

/// Where a polynomial is to be 0, and where it is to be 1.
#[derive(Clone, Copy, PartialEq, Eq, Debug)]
pub struct ValuedPoints {
    pub zeros: Handle,
    pub ones: Handle,
}
