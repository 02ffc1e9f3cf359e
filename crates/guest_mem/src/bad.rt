/// An address of the access isn't mapped with the right that it needs.
#[derive(Clone, Copy, Debug)]
pub struct Bad;
