//! What stands at a place.

ghost use Rattle.std.specs.Prelude.{◌≡◌, slice_index_or};
ghost use Rattle.jsonc_sort.specs.ordering.Order.{node_in, start_in};

// The place at which the group of a place begins.
pub(crate) fn start_at(starts: &[usize], place: usize) -> usize
    ensures { result ≡ start_in starts.now place }
{
    if place < starts.len() {
        return starts[place];
    }
    0
}

// The node at a place.
pub(crate) fn node_at<N: Copy>(nodes: &[Option<N>], place: usize) -> Option<N>
    ensures { result ≡ node_in nodes.now place }
{
    if place < nodes.len() {
        return nodes[place];
    }
    None
}
