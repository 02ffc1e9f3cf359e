//! Laws of the table of system calls. No code that runs.
#![tactic(auto)]

ghost use Rattle.std.specs.Prelude.{◌≡◌, ◌+◌, ◌-◌, ◌<◌, ◌==◌, ◌≤◌, ℕ, Bool, List, length, not, true, Option, Some, None, Result, Ok, Err, IfOk, IfSome};
ghost use Rattle.std.specs.FinMap as map;
ghost use Rattle.sim_base.specs.declared.errno.Errno.{Errno};
ghost use Rattle.sim_base.specs.declared.state.State.{State};
ghost use Rattle.sim_base.specs.declared.time.Time.{Time};
ghost use Rattle.host_fds.specs.Descriptors.{limit, IsLowestFree};
ghost use Rattle.host_files.specs.Epolls.{epoll_at};
ghost use Rattle.host_files.specs.Slots.{at};
ghost use Rattle.host_wants.specs.declared.error.Refusal.TheVariants as refusal;
ghost use Rattle.host_sockets.specs.Sockets.{SocketsRecord};
ghost use Rattle.host_wants.specs.Wanted.{Wanted};
ghost use Rattle.host_sockets.specs.Connecting.{connect_asked, connects_taking};
ghost use Rattle.host_sockets.specs.Moving.{send_asked, sends_taking, recv_asked, receives_taking};
ghost use Rattle.sim_base.specs.declared.address.Addr.{Addr};
ghost use Rattle.sim_base.specs.declared.address.Ip.{Ip};
ghost use Rattle.file_calls.specs.declared.files.Ends.{Ends};
ghost use Rattle.host_calls.specs.declared.parts.Answer.TheVariants as answer;
ghost use Rattle.call_parts.specs.declared.call.WaitingCall.TheVariants as waiting;
ghost use Rattle.file_calls.specs.declared.known.Known.{Known};
ghost use Rattle.host_calls.specs.declared.parts.Reaction.TheVariants.{Value};
ghost use Rattle.file_calls.specs.declared.task.Shared.{Shared};
ghost use Rattle.file_calls.specs.declared.task.Task.{Task};
ghost use Rattle.file_calls.specs.declared.task.Why.{Why};
ghost use Rattle.call_parts.specs.Call.{call_of};
ghost use Rattle.host_calls.specs.Calls.{call, call_scene, cleared, row_of, waiting_row, answers};
ghost use Rattle.host_calls.specs.Events.{ended};
ghost use Rattle.file_calls.specs.EpollControl.{epoll_create1};
ghost use Rattle.host_calls.specs.Epoll.{wait_plan, has_due, epoll_waits};
ghost use Rattle.file_calls.specs.Eventfd.{eventfd2};
ghost use Rattle.file_calls.specs.Files.{openat, pipe2_asked};
ghost use Rattle.call_laws.specs.Laws.{is_block, kept_call, takes_time, IsFirstFree, TakesError};
ghost use Rattle.call_laws.specs.Readiness.{AnswersWhere, would_read, would_accept, would_write, would_connect, would_wait};
ghost use Rattle.host_calls.specs.Parts.{PartsRecord, Scene};
ghost use Rattle.file_calls.specs.Scene.{Local, negative};
ghost use Rattle.host_calls.specs.Sockets.{socket};
ghost use Rattle.file_calls.specs.Times.{timerfd_create};

/// The call that a process waits in would answer exactly where making it again doesn't wait.
pub fn kept_call_answers()
    ensures { (known : Known) (now : Time) (process : ℕ) (why : Why) (h : PartsRecord) → kept_call process h ≡ Some why
        → is_block (call known now process why.number why.args h).0 ≡ not (answers known now process why h) }
{}

/// A call that was handed the time to which it waits answers once that time has come.
pub fn deadline_answers()
    ensures { (known : Known) (now : Time) (process : ℕ) (why : Why) (h : PartsRecord) (deadline : Time) → kept_call process h ≡ Some why
        → why.deadline ≡ Some deadline → takes_time (call_of why.number) why.args ≡ true → deadline.nanos ≤ now.nanos → answers known now process why h ≡ true }
{}

/// A wait for an epoll tells of no entry exactly where none is due, so only once its deadline has come.
pub fn waits_tell()
    ensures { (now : Time) (epfd at count ms : ℕ) (s : Scene) → IfOk (wait_plan now epfd at count ms s) (λ p.
        IfOk (epoll_waits now p s) (λ (told, after). (told == 0) ≡ not (has_due now s (epoll_at p.place s.task.epolls)))) }
{}

/// A new descriptor is the least free one; of a new pipe the writing end has the next free one.
pub fn new_descriptors()
    ensures file { (path flags fd : ℕ) (task : Task) (shared : Shared) (after : Local) → openat path flags (task, shared) ≡ Ok (fd, after) → IsLowestFree task.table fd }
    ensures timer { (clock flags fd : ℕ) (task : Task) (shared : Shared) (after : Local) → timerfd_create clock flags (task, shared) ≡ Ok (fd, after) → IsLowestFree task.table fd }
    ensures eventfd { (count flags fd : ℕ) (task : Task) (shared : Shared) (after : Local) → eventfd2 count flags (task, shared) ≡ Ok (fd, after) → IsLowestFree task.table fd }
    ensures epoll { (flags fd : ℕ) (task : Task) (shared : Shared) (after : Local) → epoll_create1 flags (task, shared) ≡ Ok (fd, after) → IsLowestFree task.table fd }
    ensures socket { (family type protocol fd : ℕ) (s after : Scene) → socket family type protocol s ≡ Ok (fd, after) → IsLowestFree s.task.table fd }
    ensures connection { (known : Known) (now : Time) (process : ℕ) (args : List ℕ) (fd : ℕ) (s after : Scene) → waiting_row known now process waiting.Accept args s ≡ Ok (Value fd, after) → IsLowestFree s.task.table fd }
    ensures reading_end { (at flags : ℕ) (task : Task) (fds : Ends) → pipe2_asked at flags task ≡ Ok fds → IsLowestFree task.table fds.reading }
    ensures writing_end { (at flags : ℕ) (task : Task) (fds : Ends) → pipe2_asked at flags task ≡ Ok fds
        → IsFirstFree task.table (fds.reading + 1) (limit - (fds.reading + 1)) fds.writing }
{}

/// A refusal answers the negative of its error number, and leaves all as it was but the kept call,
/// which is cleared.
pub fn refusals()
    ensures answer { (known : Known) (now : Time) (process number : ℕ) (args : List ℕ) (s : Scene) (errno : Errno)
        → row_of known now process (call_of number) args s ≡ Err (refusal.Errno errno) → (call_scene known now process number args s).0 ≡ answer.Value (negative errno) }
    ensures unchanged { (known : Known) (now : Time) (process number : ℕ) (args : List ℕ) (s : Scene) (errno : Errno)
        → row_of known now process (call_of number) args s ≡ Err (refusal.Errno errno) → (call_scene known now process number args s).1 ≡ cleared s }
{}

/// Where a connect, a send or a receive answers the error that a connection kept, it takes that error
/// and does nothing else.
pub fn kept_errors()
    ensures connect { (hosts : List Ip) (now : Time) (k : ℕ) (to : Addr) (t : SocketsRecord) (w : Wanted) (errno : Errno)
        → connect_asked hosts k to t ≡ Err (refusal.Kept errno) → TakesError now k errno t w (connects_taking hosts now k to t w) }
    ensures send { (hosts : List Ip) (now : Time) (k : ℕ) (bytes : List ℕ) (to : Option Addr) (quiet : Bool) (t : SocketsRecord) (w : Wanted) (errno : Errno)
        → send_asked hosts k (length bytes) to quiet t ≡ Err (refusal.Kept errno) → TakesError now k errno t w (sends_taking hosts now k bytes to quiet t w) }
    ensures receive { (now : Time) (k count : ℕ) (t : SocketsRecord) (w : Wanted) (errno : Errno)
        → recv_asked k t ≡ Err (refusal.Kept errno) → TakesError now k errno t w (receives_taking now k count t w) }
{}

/// The end of a process leaves it no descriptor, whether a call of its own ends it or not.
pub fn ends_of_processes()
    ensures ended { (now : Time) (process fd : ℕ) (h : PartsRecord) → fd < limit
        → IfSome (at process (ended now process h).tasks) (λ task. map.get task.table fd ≡ None) }
    ensures by_call { (known : Known) (now : Time) (process number : ℕ) (args : List ℕ) (h : PartsRecord) (state : State) (fd : ℕ)
        → (call known now process number args h).0 ≡ answer.End state → fd < limit
        → IfSome (at process (call known now process number args h).1.tasks) (λ task. map.get task.table fd ≡ None) }
{}

/// Readiness and answers agree: a call that a process waits in, and that isn't refused, answers
/// exactly where `poll(2)` tells of its descriptor what the call waits for. A pipe whose other end is
/// let go and a TCP socket whose connection is over answer too, and so does a write of no bytes; a
/// write to an eventfd goes by its room for the number that is added, and a wait for an epoll also
/// answers once its deadline has come.
pub fn readiness_and_answers()
    ensures read { AnswersWhere would_read waiting.Read }
    ensures recvfrom { AnswersWhere would_read waiting.Recvfrom }
    ensures accept { AnswersWhere would_accept waiting.Accept }
    ensures write { AnswersWhere would_write waiting.Write }
    ensures sendto { AnswersWhere would_write waiting.Sendto }
    ensures connect { AnswersWhere would_connect waiting.Connect }
    ensures epoll_wait { AnswersWhere would_wait waiting.EpollWait }
{}
