//! Laws of pipes, eventfds and epolls, over every list of acts.

ghost use Rattle.std.specs.Prelude.{◌≡◌, ℕ, Bool, List, [], ◌∷◌, ◌++◌};
ghost use Rattle.sim_base.specs.Poll.{pollin, pollout, pollerr, pollhup};
ghost use Rattle.host_fds.specs.declared.pipe.End.TheVariants.{Reading, Writing};
ghost use Rattle.host_fds.specs.Eventfd.{new_eventfd};
ghost use Rattle.host_fds.specs.Pipe.{PipeState, new_pipe};
ghost use Rattle.pipe_laws.specs.Acts.{PipeAct, LetsGo, pipe_after_all, taken, given};
ghost use Rattle.pipe_laws.specs.Eventfds as eventfd;
ghost use Rattle.pipe_laws.specs.Eventfds.{EventfdAct, eventfd_after_all};
ghost use Rattle.pipe_laws.specs.Rises.{rise_count};
ghost use Rattle.pipe_laws.specs.Watching.{EpollAct, Rise, epoll_after_all};

/// First in, first out: what stood in the pipe at first followed by what was taken is what was given
/// followed by what stands in it at last. So all was given where nothing stands in it at last.
pub fn first_in_first_out()
    ensures order { (acts : List PipeAct) (first : PipeState) → first.bytes ++ taken acts first ≡ given acts first ++ (pipe_after_all acts first).bytes }
    ensures emptied { (acts : List PipeAct) (first : PipeState) → (pipe_after_all acts first).bytes ≡ [] → given acts first ≡ first.bytes ++ taken acts first }
{}

/// After the writing end was let go nothing more is taken.
pub fn nothing_taken_after_the_end()
    ensures { (before after : List PipeAct) (first : PipeState) → taken (before ++ LetsGo Writing ∷ after) first ≡ taken before first }
{}

/// The rises that a pipe keeps of a bit are the acts behind which it holds and before which it didn't,
/// of POLLIN also those that put bytes in.
pub fn rises_are_counted()
    ensures input { (acts : List PipeAct) → (pipe_after_all acts new_pipe).read_rises.input ≡ rise_count pollin Reading acts new_pipe }
    ensures hangup { (acts : List PipeAct) → (pipe_after_all acts new_pipe).read_rises.hangup ≡ rise_count pollhup Reading acts new_pipe }
    ensures output { (acts : List PipeAct) → (pipe_after_all acts new_pipe).write_rises.output ≡ rise_count pollout Writing acts new_pipe }
    ensures error { (acts : List PipeAct) → (pipe_after_all acts new_pipe).write_rises.error ≡ rise_count pollerr Writing acts new_pipe }
{}

/// The rises that an eventfd keeps of a bit are the acts behind which it holds and before which it
/// didn't, of POLLIN also those that add a number above 0.
pub fn eventfd_rises_are_counted()
    ensures input { (acts : List EventfdAct) (count : ℕ) (semaphore : Bool)
        → (eventfd_after_all acts (new_eventfd count semaphore)).rises.input ≡ eventfd.rise_count pollin acts (new_eventfd count semaphore) }
    ensures output { (acts : List EventfdAct) (count : ℕ) (semaphore : Bool)
        → (eventfd_after_all acts (new_eventfd count semaphore)).rises.output ≡ eventfd.rise_count pollout acts (new_eventfd count semaphore) }
{}

/// The entries of an epoll stand by rising descriptors, one of each at most, so that a report tells
/// those of the lowest descriptors first.
pub fn entries_rise()
    ensures { (acts : List EpollAct) → Rise (epoll_after_all acts []) }
{}
