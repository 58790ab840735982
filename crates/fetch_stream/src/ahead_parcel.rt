//! Parcels that are made before they are asked for.

use crate::parcel::Parcel;

// A parcel that was made ahead, how many rows of its morsel are given with it, and how many were
// taken of the scan.
#[derive(Drop)]
pub(crate) struct AheadParcel {
    pub(crate) parcel: Parcel,
    pub(crate) given: usize,
    pub(crate) taken: usize,
}
