//! Parcels: payloads that are given together.

ghost use Rattle.std.specs.Prelude.{◌≡◌, ◌∷◌, [], IfOk};

use crate::payload::Payload;
use std::alloc::{AllocError, Global};
use std::marker::Model;

/// Payloads of an answer that are given together: that of the schema, or those of the dictionaries
/// of some rows, and after them that of these rows. A contract sees the bytes of each.
pub struct Parcel {
    payloads: Vec<Payload>,
}

// Written out, so that dropping it is one call (docs/DECISIONS.md).
impl Drop for Parcel {
    fn drop(self) {
        let Parcel { payloads: _ } = self;
    }
}

impl Model for Parcel {
    ghost use Rattle.std.specs.Prelude.{List};
    ghost use Rattle.flight_info.specs.Payloads.{Payload as Bytes};

    ghost Value = { List Bytes };

    ghost view = { λ p. p.payloads.items };
}

impl Parcel {
    // Of these payloads, in their order.
    pub(crate) fn new(payloads: Vec<Payload>) -> Parcel
        ensures { result ≡ payloads.items }
    {
        Parcel { payloads }
    }

    /// One payload alone.
    ///
    /// # Errors
    ///
    /// `AllocError` where memory is refused.
    pub fn one(alloc: Global, payload: Payload) -> Result<Parcel, AllocError>
        ensures { IfOk result (λ parcel. parcel ≡ payload ∷ []) }
    {
        let mut payloads = Vec::with_capacity(alloc, 1)?;
        payloads.push(payload)?;
        Ok(Parcel { payloads })
    }

    /// The payloads, in their order.
    pub fn payloads(&self) -> &[Payload]
        ensures { result.now ≡ self.now }
    {
        self.payloads.as_slice()
    }

    /// The same, each of its own.
    pub fn into_payloads(self) -> Vec<Payload>
        ensures { result.items ≡ self }
    {
        let Parcel { payloads } = self;
        payloads
    }

    /// How many bytes all have. Contracts say nothing of it.
    pub fn len(&self) -> usize {
        let mut len = 0usize;
        for payload in self.payloads.as_slice() {
            len = len.saturating_add(payload.len());
        }
        len
    }
}
