// What stands before an item: the values of a stack and the entries of a table, as a run reaches them.
ghost use Rattle.step.specs.inner.Code.{Ready};

// The first `count` of the values, over the first `used` of the entries. Both are lent.
#[derive(Clone, Copy)]
pub struct Before<'a> {
    pub words: &'a [u32],
    pub used: usize,
    pub stack: &'a [u32],
    pub count: usize,
    ghost ready: { Ready count stack.now used words.now },
}
