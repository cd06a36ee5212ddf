// An is-a line: the kind `child` is a kind of `parent`.

#[derive(Clone, Copy, PartialEq, Eq, Debug)]
pub struct Line {
    pub child: u32,
    pub parent: u32,
}
