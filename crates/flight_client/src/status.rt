//! What the status of an answer stands for.

ghost use Rattle.std.specs.Prelude.{◌≡◌, ◌<◌, ◌^◌, ℕ, MatchOption};
ghost use Rattle.scan_base.specs.declared.fault.Fault.{Fault};
ghost use Rattle.scan_base.specs.declared.fault.Fault.TheVariants.{BadSql};
ghost use Rattle.scan_base.specs.Fault.{fault_text};
ghost use Rattle.flight_client.specs.Status.{HasStatus, StatusSays};
ghost use Rattle.flight_client.specs.inside.NumberedFaults.{fault_numbered};

use scan_base::Fault;

// The fault of a number, at this position where it has one.
fn fault_numbered(number: u8, position: u32) -> Fault
    ensures { result ≡ fault_numbered number position }
{
    match number {
        1 => Fault::BadFrame,
        2 => Fault::MessageTooLarge,
        3 => Fault::UnknownMethod,
        4 => Fault::BadProto,
        5 => Fault::UnknownCommand,
        6 => Fault::BadFlatbuffer,
        7 => Fault::UnsupportedArrow,
        8 => Fault::BadBatch,
        9 => Fault::TableMissing,
        10 => Fault::TableExists,
        11 => Fault::SchemaMismatch,
        12 => Fault::LimitReached,
        13 => Fault::BadSql { position },
        14 => Fault::UnknownName,
        15 => Fault::TypeClash,
        16 => Fault::NotInSubset,
        17 => Fault::BadTicket,
        18 => Fault::VersionUnknown,
        19 => Fault::VersionExpired,
        20 => Fault::ResultTooLarge,
        21 => Fault::OutOfMemory,
        _ => Fault::Transport,
    }
}

// The position that a fault's text ends with.
fn position_in(text: &str) -> Option<u32>
    ensures { (position : ℕ) → position < 2 ^ 32 → fault_text (BadSql position) ≡ text.now →
        result ≡ Some position }
{
    let digits = text.strip_prefix("F13 BadSql at byte ")?;
    digits.parse::<u32>().ok()
}

/// The fault whose status has this code and this text. It takes no memory.
pub fn fault_of_status(code: u8, text: &str) -> Option<Fault>
    ensures { MatchOption result ((fault : Fault) → ¬ HasStatus fault code text.now)
        (λ fault. HasStatus fault code text.now) }
{
    let position = position_in(text).unwrap_or(0);
    for number in 1..23_u8 {
        let fault = fault_numbered(number, position);
        if fault.code().number() == code && fault.text().as_str() == text {
            return Some(fault);
        }
    }
    None
}

// What a status stands for.
pub(crate) fn status_end(code: u8, text: &str) -> Result<(), Fault>
    ensures { StatusSays code text.now result }
{
    if code == 0 {
        return Ok(());
    }
    Err(fault_of_status(code, text).unwrap_or(Fault::BadFrame))
}
