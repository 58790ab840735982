//! What answers a call.

ghost use Rattle.std.specs.Prelude.{◌≡◌, ◌≤◌, length, IfOk};
ghost use Rattle.scan_base.specs.Limits.{most_message_bytes};
ghost use Rattle.flight_info.specs.Replies.{refusal, whole};
ghost use Rattle.flight_info.specs.Payloads.{FitMessages};

use bytes::Bytes;
use scan_base::Fault;
use std::alloc::{AllocError, Global};
use std::marker::Model;

/// What answers a call: the payloads of the answer's messages, and a fault where its status is not
/// 0.
#[derive(Debug)]
pub struct Reply {
    pub payloads: Vec<Bytes>,
    pub fault: Option<Fault>,
}

// Written out, so that dropping it is one call (docs/DECISIONS.md).
impl Drop for Reply {
    fn drop(self) {
        let Reply {
            payloads: _,
            fault: _,
        } = self;
    }
}

impl Model for Reply {
    ghost use Rattle.flight_info.specs.Replies.{ReplyAt};

    ghost Value = { ReplyAt };

    ghost view = { λ reply. record { payloads = reply.payloads.items; fault = reply.fault } };
}

impl Reply {
    /// A reply that refuses and has no payload. It takes no memory.
    pub fn refusal(alloc: Global, fault: Fault) -> Reply
        ensures reply { result ≡ refusal fault }
        ensures fits { FitMessages result.payloads }
    {
        Reply {
            payloads: Vec::new(alloc),
            fault: Some(fault),
        }
    }

    /// A reply of these payloads and status 0.
    pub fn whole(payloads: Vec<Bytes>) -> Reply
        ensures { result ≡ whole payloads.items }
    {
        Reply {
            payloads,
            fault: None,
        }
    }
}

/// These bytes as a payload, which a message of an answer can hold.
///
/// # Errors
///
/// `AllocError` where memory is refused.
pub fn payload_of(bytes: Vec<u8>) -> Result<Bytes, AllocError>
    requires { length bytes.items ≤ most_message_bytes }
    ensures same { IfOk result (λ payload. payload ≡ bytes.items) }
    ensures fits { IfOk result (λ payload. length payload ≤ most_message_bytes) }
{
    Ok(Bytes::from_vec(bytes)?)
}
