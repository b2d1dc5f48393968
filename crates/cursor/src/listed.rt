// Which edges are listed: where no edge is removed, every edge is, and no live bit is read; else those whose bit is set.

ghost use Rattle.std.specs.Prelude.{◌*◌, ◌≤◌, length};

// The live words of the edges with their number, and whether some edge is removed.
#[derive(Clone, Copy)]
pub struct Listed<'a> {
    pub tombstoned: bool,
    pub live: &'a [u64],
    pub slots: usize,
    ghost long: { slots ≤ 64 * length live.now },
}
