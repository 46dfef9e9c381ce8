// Numbers of a trace under their C names: in an archive of their own, since they are hot.
#![tactic(auto)]

ghost use Rattle.replies.specs.Promises.{ReadsNumber, WritesNumber};

use replies::{NumberReply, WriteReply};

#[unsafe(no_mangle)]
pub extern "C" fn louravela_number_read(bytes: &[u8], place: usize) -> NumberReply
    ensures { ReadsNumber bytes.now place result }
{
    replies::read_number(bytes, place)
}

#[unsafe(no_mangle)]
pub extern "C" fn louravela_number_write(value: u64, buffer: &mut [u8], place: usize) -> WriteReply
    ensures { WritesNumber value buffer.old place result buffer.new }
{
    replies::write_number(value, buffer, place)
}
