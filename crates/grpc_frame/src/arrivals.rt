//! Records of an input that comes in pieces.

ghost use Rattle.std.specs.Prelude.{◌≡◌, ◌<◌, ℕ, List, Ok, None, IfOk, OnSome};
ghost use Rattle.std.specs.Io.KnownBytes.{IsAtEnd};
ghost use Rattle.grpc_frame.specs.Ends.{Advances, CanFail};
ghost use Rattle.grpc_frame.specs.Arrivals.{Arrives, CountsTransport, work_left};

use crate::ends::Input;
use crate::inbox::Inbox;
use crate::record::Record;
use scan_base::Fault;

impl Inbox {
    /// Takes the next record of an input, of which pieces come in until a record is whole. Nothing
    /// where the input ends before: what came is then left in the inbox.
    ///
    /// # Errors
    ///
    /// - `Fault::BadFrame` and `Fault::MessageTooLarge` as `next` gives them.
    /// - `Fault::Transport` where a read failed. It is counted.
    /// - `Fault::OutOfMemory` where memory is refused.
    pub fn next_from<R: Input>(&mut self, input: &mut R) -> Result<Option<Record>, Fault>
        requires { CanFail (R.failures input.old) }
        ensures arrives { (came : List ℕ)
            × Advances (R.tape input.old) (R.tape input.new) came
            × Arrives result self.old self.new came }
        ensures end { result ≡ Ok None → IsAtEnd (R.tape input.new).left }
        ensures counted { CountsTransport result (R.failures input.old) (R.failures input.new) }
        ensures fewer { IfOk result (λ found. OnSome found
            (work_left (R.turns input.new) self.new < work_left (R.turns input.old) self.old)) }
    {
        loop {
            if let Some(record) = self.next()? {
                return Ok(Some(record));
            }
            if self.take_in(input)? == 0 {
                return Ok(None);
            }
        }
    }
}
