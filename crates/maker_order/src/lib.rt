// The rows of the made table in the order in which they are met (01, 'Good tables': row 0 is the
// start; others are numbered as first met, rows in order, actions ascending). specs/Orders.antt says
// how the area is laid out: classes, then the pairs of the rows, then the rows of the classes.
#![tactic(auto)]

ghost use Rattle.std.specs.Prelude.{◌+◌, ◌*◌, ◌<◌, ◌≤◌, ◌≡◌, [], ◌∷◌, length};
ghost use Rattle.base.specs.Lists.{present};
ghost use Rattle.pair_graph.specs.Steps.{led_to, FlaggedGraph};
ghost use Rattle.maker_order.specs.Orders.{followers, order_of, marks_at, RowsNumbered, Grows, Classed, Cleared, InOrder};

// Where the list of rows begins in the area, and how many classes there may be.
const ORDER_AT: usize = 2000;

const MOST_CLASSES: usize = 1000;

// Meets pair j after so many rows: if its class has no row yet, it is the next row. Returns the number of rows.
fn meet(area: &mut [u8], pairs: usize, rows: usize, j: usize) -> usize
    requires rows_numbered { RowsNumbered pairs area.old rows }
    requires j_lt_pairs { j < pairs }
    ensures { Grows pairs area.old rows (j ∷ []) area.new result }
{
    let class = pair_graph::class(area, j);
    let mark = ORDER_AT + 2 * pairs + 2 * class;
    if area_bytes::two_bytes(area, mark) != 0 {
        return rows;
    }
    area_bytes::put_two_bytes(area, ORDER_AT + 2 * rows, j);
    area_bytes::put_two_bytes(area, mark, rows + 1);
    rows + 1
}

// Meets the pair that action a leads to from pair i, if it is allowed. Returns the number of rows.
fn meet_by(
    graph: &[u8],
    flags: &[u8],
    area: &mut [u8],
    pairs: usize,
    actions: usize,
    rows: usize,
    i: usize,
    a: usize,
) -> usize
    requires flagged_graph { FlaggedGraph pairs actions graph.now flags.now }
    requires rows_numbered { RowsNumbered pairs area.old rows }
    requires i_lt_pairs { i < pairs }
    requires a_lt_actions { a < actions }
    ensures { Grows pairs area.old rows (present (led_to graph.now flags.now i a ∷ [])) area.new result }
{
    let Some(j) = pair_graph::allowed(graph, flags, pairs, actions, i, a) else {
        return rows;
    };
    meet(area, pairs, rows, j)
}

// Meets the pairs that allowed actions lead to from pair i, actions ascending. Returns the number of rows.
fn expand(
    graph: &[u8],
    flags: &[u8],
    area: &mut [u8],
    pairs: usize,
    actions: usize,
    rows: usize,
    i: usize,
) -> usize
    requires flagged_graph { FlaggedGraph pairs actions graph.now flags.now }
    requires rows_numbered { RowsNumbered pairs area.old rows }
    requires i_lt_pairs { i < pairs }
    ensures { Grows pairs area.old rows (followers graph.now flags.now actions i) area.new result }
{
    let mut met = rows;
    for a in 0..actions {
        met = meet_by(graph, flags, area, pairs, actions, met, i, a);
    }
    met
}

// No class has a row.
fn clear_marks(area: &mut [u8], pairs: usize)
    requires { marks_at pairs + 2000 ≤ length area.old }
    ensures { Cleared pairs area.old area.new }
{
    let start = ORDER_AT + 2 * pairs;
    let end = start + 2 * MOST_CLASSES;
    area_bytes::clear(&mut area[start..end]);
}

// Expands the rows in order, from the first on, until none is left. Returns the number of rows.
fn expand_all(
    graph: &[u8],
    flags: &[u8],
    area: &mut [u8],
    pairs: usize,
    actions: usize,
    first: usize,
) -> usize
    requires flagged_graph { FlaggedGraph pairs actions graph.now flags.now }
    requires rows_numbered { RowsNumbered pairs area.old first }
    requires first_value { order_of area.old first ≡ 0 ∷ [] }
    ensures { InOrder graph.now flags.now pairs actions area.old area.new result }
{
    let mut rows = first;
    let mut r = 0;
    while r < rows {
        let i = area_bytes::two_bytes(area, ORDER_AT + 2 * r);
        rows = expand(graph, flags, area, pairs, actions, rows, i);
        r += 1;
    }
    rows
}

// Numbers the rows from pair 0 on. Returns how many there are.
pub fn order_rows(
    graph: &[u8],
    flags: &[u8],
    area: &mut [u8],
    pairs: usize,
    actions: usize,
) -> usize
    requires flagged_graph { FlaggedGraph pairs actions graph.now flags.now }
    requires classed { Classed pairs area.old }
    ensures { InOrder graph.now flags.now pairs actions area.old area.new result }
{
    clear_marks(area, pairs);
    let first = meet(area, pairs, 0, 0);
    expand_all(graph, flags, area, pairs, actions, first)
}
