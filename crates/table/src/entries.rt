// The one table: entries in a lent slice, ascending, one a key.
ghost use Rattle.std.specs.Prelude.{◌≤◌, length};

// No place is left in the slice.
#[derive(Clone, Copy, Debug)]
pub struct Full;

// The first `count` places are in use. Made anew for each use of a record's entries and count, which lie in fixed memory by a rule of the project.
#[derive(Drop)]
pub struct Table<'a, E> {
    pub entries: &'a mut [E],
    pub count: usize,
    ghost room: { count ≤ length entries.now },
}
