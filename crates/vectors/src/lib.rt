//! Cases by hand for the layers below: refusals with their positions, edges, published vectors.
#![tactic(auto)]

#[cfg(test)]
mod file;
#[cfg(test)]
mod sent;
