//! What stands in a deque.

/// A dealt task with its place in the dealt list, or the mark that stands behind a deque's tasks.
#[derive(Drop)]
pub enum Item<T> {
    Task(u32, T),
    Mark,
}

/// A dealt task with its number, its place in the dealt list.
#[derive(Drop)]
pub struct Numbered<T> {
    pub number: u32,
    pub task: T,
}
