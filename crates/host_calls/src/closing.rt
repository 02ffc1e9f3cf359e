//! close, and the end of a process.

ghost use Rattle.std.specs.Prelude.{◌≡◌, OnOk};
ghost use Rattle.host_sockets.specs.Sockets.{SocketsRecord};
ghost use Rattle.host_sockets.specs.StandsFor.{Stand};
ghost use Rattle.host_files.specs.Epolls.{forgotten};
ghost use Rattle.host_calls.specs.Closing as spec;
ghost use Rattle.host_calls.specs.Parts.{Leaves, scene};
ghost use Rattle.host_calls.specs.inside.Stage.{Reacts};

use crate::parts::Reaction;
use crate::stage::Stage;
use file_calls::{Descriptor, Shared, Task, look_up};
use host_fds::{End, Table};
use host_files::{Epolls, Object};
use host_sockets::Sockets;
use host_wants::CallError;
use sim_base::{NoMemory, Time};

/// Ends what a file was an end of.
fn end_object(
    now: Time,
    object: Object,
    shared: &mut Shared,
    sockets: &mut Sockets,
) -> Result<(), NoMemory>
    ensures { OnOk result ((t : SocketsRecord) → Stand sockets.old t → spec.Ended (spec.ends now object shared.old t) shared.new sockets.new) }
{
    match object {
        Object::ReadEnd(place) => {
            shared.files.shut_pipe(place, End::Reading);
            Ok(())
        }
        Object::WriteEnd(place) => {
            shared.files.shut_pipe(place, End::Writing);
            Ok(())
        }
        Object::Timer(place) => {
            shared.files.end_timer(place);
            Ok(())
        }
        Object::Eventfd(place) => {
            shared.files.end_eventfd(place);
            Ok(())
        }
        Object::Udp(place) => {
            sockets.close_udp(place);
            Ok(())
        }
        Object::Tcp(place) => sockets.close_tcp(&mut shared.outlet, now, place),
        _ => Ok(()),
    }
}

/// No epoll has an entry of a closed descriptor, and an epoll that it named is gone.
fn forget(fd: u32, object: Object, epolls: &mut Epolls)
    ensures { epolls.new ≡ forgotten fd (spec.without_epoll object epolls.old) }
{
    end_epoll(object, epolls);
    epolls.forget(fd);
}

fn end_epoll(object: Object, epolls: &mut Epolls)
    ensures { epolls.new ≡ spec.without_epoll object epolls.old }
{
    match object {
        Object::Epoll(place) => epolls.end(place),
        _ => {}
    }
}

fn close_file(
    now: Time,
    fd: u32,
    d: Descriptor,
    task: &mut Task,
    shared: &mut Shared,
    sockets: &mut Sockets,
) -> Result<(), NoMemory>
    ensures { OnOk result ((t : SocketsRecord) → Stand sockets.old t → Leaves (spec.closes now fd d (scene (task.old, shared.old) t)) (task.new, shared.new) sockets.new) }
{
    end_object(now, d.file.object, shared, sockets)?;
    shared.files.close(d.id);
    forget(fd, d.file.object, &mut task.epolls);
    let _object = task.table.close(fd);
    Ok(())
}

impl Stage<'_> {
    /// `close(2)`.
    pub(crate) fn close(&mut self, fd: u32) -> Result<Reaction, CallError>
        ensures { Reacts (spec.close self.old.time fd) self.old self.new result }
    {
        let d = look_up(fd, self.task, &self.shared.files)?;
        close_file(self.time, fd, d, self.task, self.shared, self.sockets)?;
        Ok(Reaction::Value(0))
    }
}

fn close_one(
    now: Time,
    fd: u32,
    task: &mut Task,
    shared: &mut Shared,
    sockets: &mut Sockets,
) -> Result<(), NoMemory>
    ensures { OnOk result ((t : SocketsRecord) → Stand sockets.old t → Leaves (spec.closed_one now fd (scene (task.old, shared.old) t)) (task.new, shared.new) sockets.new) }
{
    match look_up(fd, task, &shared.files) {
        Ok(d) => close_file(now, fd, d, task, shared, sockets),
        Err(_) => {
            let _object = task.table.close(fd);
            Ok(())
        }
    }
}

/// Closes all descriptors of a process, in rising order.
pub(crate) fn close_task(
    now: Time,
    task: &mut Task,
    shared: &mut Shared,
    sockets: &mut Sockets,
) -> Result<(), NoMemory>
    ensures { OnOk result ((t : SocketsRecord) → Stand sockets.old t → Leaves (spec.all_closed now (scene (task.old, shared.old) t)) (task.new, shared.new) sockets.new) }
{
    for fd in 0..Table::LIMIT as u32 {
        close_one(now, fd, task, shared, sockets)?;
    }
    Ok(())
}
