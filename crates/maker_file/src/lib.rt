// The made table as a file (01, 'Good tables', from 'Table file' on): rows in the order in which they
// are met, each with its state and its allowed steps. specs/Writing.antt says which table that is.
#![tactic(auto)]

ghost use Rattle.std.specs.Prelude.{◌+◌, ◌*◌, ◌<◌, ◌≤◌, ◌≡◌, [], ◌∷◌, ◌++◌, length};
ghost use Rattle.std.proofs.lemmas.List.Edits.{sets};
ghost use Rattle.base.specs.Lists.{present};
ghost use Rattle.base.specs.Bytes.{number_at, number_bytes};
ghost use Rattle.logic.specs.TableFile.{rows_at, steps_at, table_file};
ghost use Rattle.pair_graph.specs.Steps.{led_to, FlaggedGraph};
ghost use Rattle.maker_order.specs.Orders.{followers, order_of};
ghost use Rattle.maker_file.specs.Writing.{table_in, Writable, ShortNumbers, WritesTable, steps_total, step_of, steps_of, packed_of, Laid, IsRow, RowsMarked, Wrote, WroteCounts, WroteHeader, WroteRows, WroteFile};

use logic::FileLayout;
use maker_order;

// Where the list of rows begins in the area of classes.
const ORDER_AT: usize = 2000;

// The pair that stands for row r.
fn pair_of(area: &[u8], r: usize) -> usize
    requires { 2000 + 2 * r + 1 < length area.now }
    ensures { result ≡ number_at 2 area.now (2000 + 2 * r) }
{
    area_bytes::two_bytes(area, ORDER_AT + 2 * r)
}

// The row of pair j's class.
fn row_of(area: &[u8], pairs: usize, j: usize) -> usize
    requires { RowsMarked area.now pairs j }
    ensures { result + 1 ≡ number_at 2 area.now (2000 + 2 * pairs + 2 * number_at 2 area.now (2 * j)) }
{
    let class = pair_graph::class(area, j);
    area_bytes::two_bytes(area, ORDER_AT + 2 * pairs + 2 * class) - 1
}

// 1 if action a is allowed from pair i, and else 0.
fn has_step(graph: &[u8], flags: &[u8], pairs: usize, actions: usize, i: usize, a: usize) -> usize
    requires flagged_graph { FlaggedGraph pairs actions graph.now flags.now }
    requires i_lt_pairs { i < pairs }
    requires a_lt_actions { a < actions }
    ensures { result ≡ length (present (led_to graph.now flags.now i a ∷ [])) }
{
    let Some(_) = pair_graph::allowed(graph, flags, pairs, actions, i, a) else {
        return 0;
    };
    1
}

// The number of steps from pair i.
fn step_count(graph: &[u8], flags: &[u8], pairs: usize, actions: usize, i: usize) -> usize
    requires flagged_graph { FlaggedGraph pairs actions graph.now flags.now }
    requires i_lt_pairs { i < pairs }
    ensures { result ≡ length (followers graph.now flags.now actions i) }
{
    let mut count = 0;
    for a in 0..actions {
        count += has_step(graph, flags, pairs, actions, i, a);
    }
    count
}

// The number of steps of all rows.
fn total_steps(
    graph: &[u8],
    flags: &[u8],
    area: &[u8],
    pairs: usize,
    actions: usize,
    rows: usize,
) -> usize
    requires { Laid graph.now flags.now area.now pairs actions rows }
    ensures { result ≡ steps_total graph.now flags.now actions (order_of area.now rows) }
{
    let mut total = 0;
    for r in 0..rows {
        total += step_count(graph, flags, pairs, actions, pair_of(area, r));
    }
    total
}

// Writes two two-byte numbers at p.
fn write_two_numbers(out: &mut [u8], p: usize, a: usize, b: usize)
    requires { p + 4 ≤ length out.old }
    ensures { out.new ≡ sets out.old p (number_bytes 2 a ++ number_bytes 2 b) }
{
    area_bytes::put_two_bytes(out, p, a);
    area_bytes::put_two_bytes(out, p + 2, b);
}

// Writes the first four numbers of the header: rows, steps, and where each begin.
fn write_counts(out: &mut [u8], rows: usize, steps: usize, place: usize)
    requires { rows_at ≤ length out.old }
    ensures { WroteCounts rows steps place out.old out.new }
{
    write_two_numbers(out, 0, rows, steps);
    write_two_numbers(out, 4, file_layout::ROWS_AT, place);
}

// Writes the header.
fn write_header(
    out: &mut [u8],
    layout: FileLayout,
    rows: usize,
    steps: usize,
    states: usize,
    actions: usize,
)
    requires rows_at_in_bounds { rows_at ≤ length out.old }
    requires rows_bound { rows ≤ 1000 }
    requires short_numbers { ShortNumbers layout }
    ensures { WroteHeader layout rows steps states actions out.old out.new }
{
    write_counts(out, rows, steps, file_layout::row_at(layout, rows));
    write_two_numbers(out, 8, states, actions);
}

// Writes at p a number in one byte, and behind it one in two.
fn write_three_bytes(out: &mut [u8], p: usize, small: usize, number: usize)
    requires { p + 3 ≤ length out.old }
    ensures { out.new ≡ sets out.old p (number_bytes 1 small ++ number_bytes 2 number) }
{
    area_bytes::put_number(out, p, 1, small);
    area_bytes::put_two_bytes(out, p + 1, number);
}

// Writes a row at p: state, step count, first step.
fn write_row(out: &mut [u8], p: usize, width: usize, state: usize, count: usize, first: usize)
    requires le_width { 1 ≤ width }
    requires width_bound { width ≤ 2 }
    requires width_in_bounds { p + width + 3 ≤ length out.old }
    ensures { out.new ≡ sets out.old p (number_bytes width state ++ (number_bytes 1 count ++ number_bytes 2 first)) }
{
    area_bytes::put_number(out, p, width, state);
    write_three_bytes(out, p + width, count, first);
}

// Writes the rows, each with the number of steps before it as its first step.
fn write_rows(
    graph: &[u8],
    flags: &[u8],
    area: &[u8],
    out: &mut [u8],
    layout: FileLayout,
    pairs: usize,
    actions: usize,
    rows: usize,
)
    requires laid { Laid graph.now flags.now area.now pairs actions rows }
    requires short_numbers { ShortNumbers layout }
    requires rows_in_bounds { steps_at layout rows ≤ length out.old }
    ensures { WroteRows layout graph.now flags.now area.now actions rows out.old out.new }
{
    let mut first = 0;
    for row in 0..rows {
        let i = pair_of(area, row);
        let count = step_count(graph, flags, pairs, actions, i);
        write_row(
            out,
            file_layout::row_at(layout, row),
            layout.width,
            pair_graph::state(graph, i),
            count,
            first,
        );
        first += count;
    }
}

// Writes the step of action a from pair i at p, if it is allowed. Returns where the next step goes.
fn write_allowed(
    graph: &[u8],
    flags: &[u8],
    area: &[u8],
    out: &mut [u8],
    pairs: usize,
    actions: usize,
    rows: usize,
    i: usize,
    a: usize,
    p: usize,
) -> usize
    requires laid { Laid graph.now flags.now area.now pairs actions rows }
    requires row { IsRow area.now rows i }
    requires a_lt_actions { a < actions }
    requires a_in_bounds { p + 3 * length (present (step_of graph.now flags.now area.now rows i a ∷ [])) ≤ length out.old }
    ensures { Wrote (present (step_of graph.now flags.now area.now rows i a ∷ [])) out.old p out.new result }
{
    let Some(j) = pair_graph::allowed(graph, flags, pairs, actions, i, a) else {
        return p;
    };
    write_three_bytes(out, p, a, row_of(area, pairs, j));
    p + file_layout::STEP_SIZE
}

// Writes the steps from pair i at p, actions ascending. Returns where the next step goes.
fn write_steps_of(
    graph: &[u8],
    flags: &[u8],
    area: &[u8],
    out: &mut [u8],
    pairs: usize,
    actions: usize,
    rows: usize,
    i: usize,
    p: usize,
) -> usize
    requires laid { Laid graph.now flags.now area.now pairs actions rows }
    requires row { IsRow area.now rows i }
    requires i_in_bounds { p + 3 * length (steps_of graph.now flags.now area.now rows actions i) ≤ length out.old }
    ensures { Wrote (steps_of graph.now flags.now area.now rows actions i) out.old p out.new result }
{
    let mut next = p;
    for a in 0..actions {
        next = write_allowed(graph, flags, area, out, pairs, actions, rows, i, a, next);
    }
    next
}

// Writes the steps of all rows at p, packed in row order. Returns where the file ends.
fn write_steps(
    graph: &[u8],
    flags: &[u8],
    area: &[u8],
    out: &mut [u8],
    pairs: usize,
    actions: usize,
    rows: usize,
    p: usize,
) -> usize
    requires laid { Laid graph.now flags.now area.now pairs actions rows }
    requires rows_in_bounds { p + 3 * steps_total graph.now flags.now actions (order_of area.now rows) ≤ length out.old }
    ensures { Wrote (packed_of graph.now flags.now area.now rows actions) out.old p out.new result }
{
    let mut next = p;
    for done in 0..rows {
        next = write_steps_of(
            graph,
            flags,
            area,
            out,
            pairs,
            actions,
            rows,
            pair_of(area, done),
            next,
        );
    }
    next
}

// Writes the table of so many rows with so many steps. Returns its length.
fn write_file(
    graph: &[u8],
    flags: &[u8],
    area: &[u8],
    out: &mut [u8],
    layout: FileLayout,
    pairs: usize,
    states: usize,
    actions: usize,
    rows: usize,
    total: usize,
) -> usize
    requires laid { Laid graph.now flags.now area.now pairs actions rows }
    requires total_value { total ≡ steps_total graph.now flags.now actions (order_of area.now rows) }
    requires short_numbers { ShortNumbers layout }
    requires total_in_bounds { steps_at layout rows + 3 * total ≤ length out.old }
    ensures { WroteFile layout graph.now flags.now area.now states actions rows out.old out.new result }
{
    write_header(out, layout, rows, total, states, actions);
    write_rows(graph, flags, area, out, layout, pairs, actions, rows);
    write_steps(
        graph,
        flags,
        area,
        out,
        pairs,
        actions,
        rows,
        file_layout::row_at(layout, rows),
    )
}

// Writes the table of the safe pairs and their classes in this layout, and answers its length, if there is room for it.
// Behind the classes the area is used for the order of the rows.
pub fn write_table(
    graph: &[u8],
    flags: &[u8],
    classes: &mut [u8],
    out: &mut [u8],
    layout: FileLayout,
    pairs: usize,
    states: usize,
    actions: usize,
) -> Option<usize>
    requires writable { Writable graph.now flags.now classes.old pairs actions }
    requires short_numbers { ShortNumbers layout }
    ensures { WritesTable (table_file layout states actions (table_in graph.now flags.now classes.old pairs actions)) out.old result out.new }
{
    let rows = maker_order::order_rows(graph, flags, classes, pairs, actions);
    let total = total_steps(graph, flags, classes, pairs, actions, rows);
    let steps_at = file_layout::row_at(layout, rows);
    if out.len() < steps_at + file_layout::STEP_SIZE * total {
        return None;
    }
    Some(write_file(
        graph, flags, classes, out, layout, pairs, states, actions, rows, total,
    ))
}
