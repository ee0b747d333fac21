//! Normal forms of monomials and the elements of the reduced basis, over any store of nodes.
#![tactic(auto)]

mod elements;

pub use crate::elements::{basis_element, least_by, normal_form_of};
