// The copies of an item at n stations, which lie in the table.
ghost use Rattle.std.specs.Prelude.{◌≡◌, ◌+◌, ◌≤◌, ◌<◌, length};
ghost use Rattle.layout.specs.Layout.{address, copy_size};
ghost use Rattle.table.specs.ItemCopies.{InTable};

#[derive(Clone, Copy)]
pub struct Copies<'a> {
    pub table: &'a [u8],
    pub n: usize,
    pub item: usize,
    pub ghost in_table: { InTable table.now n item },
}

impl Copies<'_> {
    // Where the copy at a station starts; it lies in the table.
    pub fn address(self, s: usize) -> usize
        requires { s < self.n }
        ensures place { result ≡ address self.entry.n self.entry.item s }
        ensures fits { result + copy_size ≤ length self.entry.table.now }
    {
        table::copy::address(self.n, self.item, s)
    }
}
