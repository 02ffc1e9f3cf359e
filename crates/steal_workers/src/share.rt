//! A seat's share in one deque of a deal.
ghost use Rattle.steal_workers.specs.inside.Shares.{IsShare, Follows, Finds};

use crate::handle::Handle;
use crate::item::Item;

/// `marked` says that the seat has taken its end mark.
#[derive(Drop)]
pub struct Share<T> {
    pub handle: Handle<T>,
    pub marked: bool,
}

/// What a seat finds at a deque: a task and its number, that it has the end mark, or that another seat took the item
/// at the front.
#[derive(Drop)]
pub enum Finding<T> {
    Task(u32, T),
    Marked,
    Lost,
}

impl<T> Share<T> {
    /// Takes from the deque, unless its mark was taken.
    pub fn take(&mut self) -> Finding<T>
        requires { IsShare self.old }
        ensures same { Follows self.old self.new }
        ensures finding { Finds self.old result self.new }
    {
        if self.marked {
            return Finding::Marked;
        }
        match self.handle.take() {
            None => Finding::Lost,
            Some(item) => match item {
                Item::Task(number, task) => Finding::Task(number, task),
                Item::Mark => {
                    self.marked = true;
                    Finding::Marked
                }
            },
        }
    }
}
