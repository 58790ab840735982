//! Reading an input to its end.

ghost use Rattle.grpc_frame.specs.Ends.{CanFail};
ghost use Rattle.command_ends.specs.WholeInput.{ReadsWhole, ReadsMessages, source_of};

use crate::input_buffer::InputBuffer;
use bytes::Bytes;
use grpc_frame::Input;
use ipc_stream::{IpcMessage, ipc_messages};
use scan_base::Fault;
use std::alloc::Global;

/// All bytes of an input. Memory grows to twice what came, and no byte is copied after that.
///
/// # Errors
///
/// - `Fault::Transport` (F22) where a read failed. It is counted.
/// - `Fault::OutOfMemory` (F21) where memory is refused.
pub fn read_whole<R: Input>(alloc: Global, input: &mut R) -> Result<Bytes, Fault>
    requires { CanFail (R.failures input.old) }
    ensures { ReadsWhole result (source_of R.Input input.old) (source_of R.Input input.new) }
{
    let mut held = InputBuffer::new(alloc);
    loop {
        held.make_room()?;
        if held.read_from(input)? == 0 {
            return match Bytes::from_vec(held.into_vec()) {
                Ok(bytes) => Ok(bytes),
                Err(_) => Err(Fault::OutOfMemory),
            };
        }
    }
}

/// The messages of an Arrow IPC stream, which is a whole input.
///
/// # Errors
///
/// - `Fault::BadFlatbuffer` (F6) where the input is no such stream.
/// - `Fault::Transport` (F22) where a read failed. It is counted.
/// - `Fault::OutOfMemory` (F21) where memory is refused.
pub fn read_messages<R: Input>(alloc: Global, input: &mut R) -> Result<Vec<IpcMessage>, Fault>
    requires { CanFail (R.failures input.old) }
    ensures { ReadsMessages (λ messages. messages.items) result
        (source_of R.Input input.old) (source_of R.Input input.new) }
{
    let stream = read_whole(alloc, input)?;
    ipc_messages(alloc, &stream)
}
