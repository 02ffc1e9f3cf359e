//! What objects are ready for, and what an epoll sees of them.

ghost use Rattle.std.specs.Prelude.{◌≡◌, ◌≤◌};
ghost use Rattle.sim_base.specs.Units.{latest_time};
ghost use Rattle.host_sockets.specs.Sockets.{SocketsRecord};
ghost use Rattle.host_sockets.specs.StandsFor.{Stand};
ghost use Rattle.host_files.specs.Epolls.{epoll_at};
ghost use Rattle.host_calls.specs.Ready as spec;
ghost use Rattle.host_calls.specs.inside.Stage.{Sees};

use crate::stage::View;
use call_parts::{eventfd_ready, eventfd_rises, pipe_ready, pipe_rises, timer_ready, timer_rises};
use file_calls::look_up;
use host_fds::{End, Rises, Seen, Watch};
use host_files::{Files, Object};
use host_sockets::Sockets;
use sim_base::{POLLIN, POLLOUT, Time};

/// What an object that is no epoll is ready for, by the bits of `poll(2)`.
fn object_ready(now: Time, object: Object, files: &Files, sockets: &Sockets) -> u16
    requires { now.nanos ≤ latest_time }
    ensures { (t : SocketsRecord) → Stand sockets.now t → result ≡ spec.object_ready now object files.now t }
{
    match object {
        Object::Input => POLLIN,
        Object::Output => POLLOUT,
        Object::Errors => POLLOUT,
        Object::Hosts(_) => POLLIN + POLLOUT,
        Object::ReadEnd(place) => pipe_ready(place, End::Reading, files),
        Object::WriteEnd(place) => pipe_ready(place, End::Writing, files),
        Object::Timer(place) => timer_ready(now, place, files),
        Object::Eventfd(place) => eventfd_ready(place, files),
        Object::Epoll(_) => 0,
        Object::Udp(place) => sockets.udp_ready(place),
        Object::Tcp(place) => sockets.tcp_ready(place),
    }
}

/// The bits that an epoll sees of an object: of a TCP socket `POLLRDHUP` too.
fn bits_seen(now: Time, object: Object, files: &Files, sockets: &Sockets) -> u16
    requires { now.nanos ≤ latest_time }
    ensures { (t : SocketsRecord) → Stand sockets.now t → result ≡ spec.bits_seen now object files.now t }
{
    match object {
        Object::Tcp(place) => sockets.tcp_seen(place),
        _ => object_ready(now, object, files, sockets),
    }
}

/// How often each bit came to hold for an object.
fn object_rises(now: Time, object: Object, files: &Files, sockets: &Sockets) -> Rises
    requires { now.nanos ≤ latest_time }
    ensures { (t : SocketsRecord) → Stand sockets.now t → result ≡ spec.object_rises now object files.now t }
{
    match object {
        Object::ReadEnd(place) => pipe_rises(place, End::Reading, files),
        Object::WriteEnd(place) => pipe_rises(place, End::Writing, files),
        Object::Timer(place) => timer_rises(now, place, files),
        Object::Eventfd(place) => eventfd_rises(place, files),
        Object::Udp(place) => sockets.udp_rises(place),
        Object::Tcp(place) => sockets.tcp_rises(place),
        _ => Rises::none(),
    }
}

/// What is seen of an object where an entry is due by it. Only where the entry asks for one of the bits that hold does
/// it matter how often they came to hold.
fn object_due(
    now: Time,
    watch: &Watch,
    object: Object,
    files: &Files,
    sockets: &Sockets,
) -> Option<Seen>
    requires { now.nanos ≤ latest_time }
    ensures { (t : SocketsRecord) → Stand sockets.now t → result ≡ spec.if_due watch.now (spec.seen_as now watch.now.fd object files.now t) }
{
    let bits = u32::from(bits_seen(now, object, files, sockets));
    if !watch.asks_for(bits) {
        return None;
    }
    let seen = Seen {
        fd: watch.fd,
        bits,
        rises: object_rises(now, object, files, sockets),
    };
    watch.is_due(seen).then_some(seen)
}

impl View<'_> {
    /// What is seen of an entry's descriptor, where the entry is due.
    pub(crate) fn seen_due(&self, watch: &Watch) -> Option<Seen>
        requires { self.now.time.nanos ≤ latest_time }
        ensures { Sees (λ s. spec.seen_due self.now.time s watch.now) self.now result }
    {
        let files = &self.shared.files;
        match look_up(watch.fd, self.task, files) {
            Ok(d) => object_due(self.time, watch, d.file.object, files, self.sockets),
            Err(_) => None,
        }
    }

    fn is_due(&self, watch: &Watch) -> bool
        requires { self.now.time.nanos ≤ latest_time }
        ensures { Sees (λ s. spec.is_due self.now.time s watch.now) self.now result }
    {
        self.seen_due(watch).is_some()
    }

    /// Whether a wait would tell of some entry. It takes no memory.
    pub(crate) fn some_due(&self, entries: &[Watch]) -> bool
        requires { self.now.time.nanos ≤ latest_time }
        ensures { Sees (λ s. spec.some_due self.now.time s entries.now) self.now result }
    {
        for place in 0..entries.len() {
            if self.is_due(&entries[place]) {
                return true;
            }
        }
        false
    }

    fn epoll_ready(&self, place: usize) -> u16
        requires { self.now.time.nanos ≤ latest_time }
        ensures { Sees (λ s. spec.epoll_ready self.now.time s (epoll_at place s.task.epolls)) self.now result }
    {
        match self.task.epolls.get(place) {
            Some(epoll) => {
                if self.some_due(epoll.entries()) {
                    POLLIN
                } else {
                    0
                }
            }
            None => 0,
        }
    }

    /// What an object is ready for, by the bits of `poll(2)`.
    pub(crate) fn readiness(&self, object: Object) -> u16
        requires { self.now.time.nanos ≤ latest_time }
        ensures { Sees (spec.readiness self.now.time object) self.now result }
    {
        match object {
            Object::Epoll(place) => self.epoll_ready(place),
            _ => object_ready(self.time, object, &self.shared.files, self.sockets),
        }
    }
}
