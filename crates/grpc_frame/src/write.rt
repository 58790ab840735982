//! The heads of records that are sent.

ghost use Rattle.std.specs.Prelude.{◌≡◌, ◌<◌, ◌≤◌, ◌^◌};
ghost use Rattle.scan_base.specs.Fault.{grpc_number, code_of};
ghost use Rattle.scan_base.specs.Limits.{most_message_bytes};
ghost use Rattle.grpc_frame.specs.Records.{message_head, status_head};

use crate::record::{MESSAGE, STATUS};
use scan_base::Fault;

// The head of a Message of so many bytes: its kind byte, a flag of 0 and its length.
pub(crate) fn message_head(len: usize) -> [u8; 6]
    requires { len ≤ most_message_bytes }
    ensures { result ≡ message_head len }
{
    let [first, second, third, fourth] = (len as u32).to_be_bytes();
    [MESSAGE, 0, first, second, third, fourth]
}

// The head of a Status with a fault's code, and a text of so many bytes.
pub(crate) fn status_head(fault: Fault, text_len: usize) -> [u8; 4]
    requires { text_len < 2 ^ 16 }
    ensures { result ≡ status_head (grpc_number (code_of fault)) text_len }
{
    let [high, low] = (text_len as u16).to_be_bytes();
    [STATUS, fault.code().number(), high, low]
}
