//! What the first bytes of a record say of it.

ghost use Rattle.std.specs.Prelude.{◌≡◌, ◌≢◌, true, IsOk, IfOk, IfErr, IfSome};
ghost use Rattle.std.specs.Str.{is_utf8};
ghost use Rattle.scan_base.specs.declared.fault.Fault.TheVariants.{OutOfMemory};
ghost use Rattle.grpc_frame.specs.Head.{open_head, message_head_in, status_head_in, head_of};
ghost use Rattle.grpc_frame.specs.Head.{AreBytes, HasBounds};
ghost use Rattle.grpc_frame.specs.Front.{is_content, record_of, place_behind, FindsFront};

use crate::place::Place;
use crate::record::{END, MAX_MESSAGE_LEN, MAX_PATH_LEN, MESSAGE, OPEN, Record, STATUS};
use bytes::{ByteStr, Bytes};
use scan_base::Fault;
use std::str;

/// The kind of a record, with what its head holds besides a length.
#[derive(Clone, Copy, Debug, PartialEq, Eq)]
pub enum RecordKind {
    Open,
    Message,
    End,
    Status { code: u8 },
}

/// The head of a record: what stands before its content.
#[derive(Clone, Copy, Debug, PartialEq, Eq)]
pub struct Head {
    pub kind: RecordKind,
    /// How many bytes the head has.
    pub len: usize,
    /// How many bytes of content follow it.
    pub content_len: usize,
}

impl RecordKind {
    /// Whether a record of this kind may hold these bytes: a status text is UTF-8.
    pub fn allows(self, content: &[u8]) -> bool
        ensures { result ≡ is_content self content.now }
    {
        match self {
            RecordKind::Status { .. } => is_text(content),
            RecordKind::Open | RecordKind::Message | RecordKind::End => true,
        }
    }

    /// The place after a record of this kind.
    pub fn place_behind(self, place: Place) -> Place
        ensures { result ≡ place_behind self place }
    {
        match self {
            RecordKind::Open => Place::InsideCall,
            RecordKind::End => Place::BetweenCalls,
            RecordKind::Message | RecordKind::Status { .. } => place,
        }
    }

    /// The record of this kind that holds these bytes.
    #[tactic(auto, using(crate::proofs::Texts::texts))]
    pub fn into_record(self, content: Bytes) -> Record
        requires { is_content self content ≡ true }
        ensures { result ≡ record_of self content }
    {
        match self {
            RecordKind::Open => Record::Open(content),
            RecordKind::Message => Record::Message(content),
            RecordKind::End => Record::End,
            RecordKind::Status { code } => Record::Status {
                code,
                text: ByteStr::from_known_utf8(content),
            },
        }
    }
}

// Whether the bytes are UTF-8.
#[tactic(auto, using(crate::proofs::Texts::texts))]
fn is_text(bytes: &[u8]) -> bool
    ensures { result ≡ is_utf8 bytes.now }
{
    str::from_utf8(bytes).is_ok()
}

// The head of an Open: the kind byte and a length of two bytes.
fn read_open(bytes: &[u8]) -> Result<Option<Head>, Fault>
    ensures value { result ≡ open_head bytes.now }
    ensures kind { IfErr result (λ fault. fault ≢ OutOfMemory) }
    ensures small { IfOk result (λ o. IfSome o HasBounds) }
{
    if bytes.len() < 3 {
        return Ok(None);
    }
    let content_len = usize::from(u16::from_be_bytes([bytes[1], bytes[2]]));
    if content_len > MAX_PATH_LEN {
        return Err(Fault::BadFrame);
    }
    Ok(Some(Head {
        kind: RecordKind::Open,
        len: 3,
        content_len,
    }))
}

// The head of a Message: the kind byte, the flag and a length of four bytes.
fn read_message(bytes: &[u8]) -> Result<Option<Head>, Fault>
    ensures value { result ≡ message_head_in bytes.now }
    ensures kind { IfErr result (λ fault. fault ≢ OutOfMemory) }
    ensures small { IfOk result (λ o. IfSome o HasBounds) }
{
    if bytes.len() < 2 {
        return Ok(None);
    }
    if bytes[1] != 0 {
        return Err(Fault::BadFrame);
    }
    if bytes.len() < 6 {
        return Ok(None);
    }
    let content_len = u32::from_be_bytes([bytes[2], bytes[3], bytes[4], bytes[5]]) as usize;
    if content_len > MAX_MESSAGE_LEN {
        return Err(Fault::MessageTooLarge);
    }
    Ok(Some(Head {
        kind: RecordKind::Message,
        len: 6,
        content_len,
    }))
}

// The head of a Status: the kind byte, the code and a length of two bytes.
fn read_status(bytes: &[u8]) -> Result<Option<Head>, Fault>
    ensures value { result ≡ status_head_in bytes.now }
    ensures kind { IsOk result }
    ensures small { IfOk result (λ o. IfSome o HasBounds) }
{
    if bytes.len() < 4 {
        return Ok(None);
    }
    Ok(Some(Head {
        kind: RecordKind::Status { code: bytes[1] },
        len: 4,
        content_len: usize::from(u16::from_be_bytes([bytes[2], bytes[3]])),
    }))
}

/// The head in front of the bytes, or nothing where more of it has to come first.
///
/// # Errors
///
/// `Fault::BadFrame` where the kind byte is none that may come at this place, a path is too long
/// or a message's flag is not 0. `Fault::MessageTooLarge` where a message is too long.
#[tactic(auto, unfolding(crate::specs::Head::head_of))]
pub fn read_head(place: Place, bytes: &[u8]) -> Result<Option<Head>, Fault>
    ensures value { result ≡ head_of place bytes.now }
    ensures bytes { AreBytes bytes.now }
    ensures small { IfOk result (λ o. IfSome o HasBounds) }
    ensures kind { IfErr result (λ fault. fault ≢ OutOfMemory) }
{
    if bytes.is_empty() {
        return Ok(None);
    }
    match (place, bytes[0]) {
        (Place::BetweenCalls, OPEN) => read_open(bytes),
        (Place::InsideCall, MESSAGE) | (Place::InAnswer, MESSAGE) => read_message(bytes),
        (Place::InsideCall, END) => Ok(Some(Head {
            kind: RecordKind::End,
            len: 1,
            content_len: 0,
        })),
        (Place::InAnswer, STATUS) => read_status(bytes),
        _ => Err(Fault::BadFrame),
    }
}

/// The head of the record in front, once all of the record has come.
///
/// # Errors
///
/// Those of `read_head`, and `Fault::BadFrame` where a status text is not UTF-8.
#[tactic(auto, unfolding(crate::specs::Front::front_of), using(crate::proofs::Found::found))]
pub fn read_front(place: Place, bytes: &[u8]) -> Result<Option<Head>, Fault>
    ensures front { FindsFront result (record { bytes = bytes.now; place = place }) }
    ensures bytes { AreBytes bytes.now }
    ensures small { IfOk result (λ o. IfSome o HasBounds) }
{
    let Some(head) = read_head(place, bytes)? else {
        return Ok(None);
    };
    let whole = head.len + head.content_len;
    if bytes.len() < whole {
        return Ok(None);
    }
    if !head.kind.allows(&bytes[head.len..whole]) {
        return Err(Fault::BadFrame);
    }
    Ok(Some(head))
}
