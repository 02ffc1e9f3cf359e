//! Calls that would wait.

ghost use Rattle.std.specs.Prelude.{◌≡◌};
ghost use Rattle.file_calls.specs.Scene as spec;

use host_wants::Refusal;
use sim_base::Errno;

/// What a refusal is where a descriptor may be nonblocking: a call that would wait answers EAGAIN.
fn again_refusal(nonblocking: bool, refusal: Refusal) -> Refusal
    ensures { result ≡ spec.again_refusal nonblocking refusal }
{
    match refusal {
        Refusal::Wait(until) => {
            if nonblocking {
                Refusal::Errno(Errno::Eagain)
            } else {
                Refusal::Wait(until)
            }
        }
        Refusal::Errno(errno) => Refusal::Errno(errno),
        Refusal::Kept(errno) => Refusal::Kept(errno),
        Refusal::End(state) => Refusal::End(state),
    }
}

/// What a call waits for, where its descriptor may be nonblocking.
pub fn or_again(nonblocking: bool, asked: Result<(), Refusal>) -> Result<(), Refusal>
    ensures { result ≡ spec.or_again nonblocking asked }
{
    match asked {
        Ok(()) => Ok(()),
        Err(refusal) => Err(again_refusal(nonblocking, refusal)),
    }
}

/// An error that a connection kept answers a call, which takes it.
pub fn kept_answers(asked: Result<(), Refusal>) -> Result<(), Refusal>
    ensures { result ≡ spec.kept_answers asked }
{
    match asked {
        Ok(()) => Ok(()),
        Err(Refusal::Kept(_)) => Ok(()),
        Err(Refusal::Errno(errno)) => Err(Refusal::Errno(errno)),
        Err(Refusal::Wait(until)) => Err(Refusal::Wait(until)),
        Err(Refusal::End(state)) => Err(Refusal::End(state)),
    }
}

/// What a guest sees of an error number.
pub fn negative(errno: Errno) -> u32
    ensures { result ≡ spec.negative errno }
{
    0u32.wrapping_sub(errno.number())
}
