// The search through the sets, from rows in bytes.
ghost use Rattle.std.specs.Prelude.{◌≤◌, length};
ghost use Rattle.worst.specs.Asked.{RowsAsked, RowsDone};

use packing::Node;
use placement::Order;
use worst::{Search, Shape};

// The fewest usable records over all sets of k nodes; the first set that leaves so few is put at the start of `out`.
pub(crate) fn fewest_usable(rows: &[u8], shape: Shape, order: Order, out: &mut [u8]) -> usize
    requires rows_asked { RowsAsked shape order rows.now }
    requires k_in_bounds { order.k ≤ length out.old }
    ensures { RowsDone shape order rows.now out.old out.new result }
{
    let n = shape.n;
    let r = shape.r;
    let s = order.s;
    let k = order.k;
    let b = order.b;
    let mut index = [0u16; 20737];
    worst_records::list_records(rows, r, b, &mut index);
    let most = worst_records::most_records(&index);
    let mut hits = [0u8; 4096];
    let mut set = [0u8; 256];
    let least = b + 1;
    let search = Search {
        n,
        k,
        s,
        next: Node(0),
        chosen: 0,
        usable: b,
        least,
    };
    worst_search::search(search, most, &index, &mut hits[0..b], &mut set, out)
}
