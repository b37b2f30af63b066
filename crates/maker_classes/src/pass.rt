// One pass over the marked pairs: one that no longer looks like the first of its class leaves the class. Those that leave a class
// and look the same get the same new class, the number of the first of them.
ghost use Rattle.std.specs.Prelude.{◌+◌, ◌<◌};
ghost use Rattle.maker_view.specs.View.{view_of, IsBucket};
ghost use Rattle.maker_classes.specs.Passes.{old_part, new_in, Suits, PassReady, Leaving, Passed, PassedFrom, ToAdopt, Adopted};

// Where the parts of the area begin: the classes are at 0, then the new classes, and the buckets with the links and heads of their
// chains.
pub const NEW: usize = 2000;

const LINKS: usize = 4000;

const HEADS: usize = 6000;

const HEADS_END: usize = 8042;

// The new class of pair i, which leaves its class: that of an earlier pair that looks the same, or i if there is none. The bucket of
// pair i has all that can.
fn found(
    graph: &[u8],
    flags: &[u8],
    pairs: usize,
    actions: usize,
    area: &[u8],
    marks: &[u8],
    i: usize,
    h: usize,
    separated: usize,
) -> usize
    requires passed { Passed graph.now flags.now actions pairs i area.now marks.now separated }
    requires leaving { Leaving graph.now flags.now actions pairs area.now i }
    requires bucket { IsBucket (view_of graph.now flags.now actions (old_part area.now)) i h }
    ensures { Suits (view_of graph.now flags.now actions (old_part area.now)) (new_in area.now) i result }
{
    let classes = &area[..NEW];
    let mut at = area_chains::head(area, HEADS, h);
    while 0 < at {
        let k = at - 1;
        if maker_view::alike(graph, flags, pairs, actions, classes, k, i) {
            return area_bytes::two_bytes(area, NEW + 2 * k);
        }
        at = area_chains::link(area, LINKS, k);
    }
    i
}

// Pair i leaves its class, and stands in its bucket and on the list.
fn leave(
    graph: &[u8],
    flags: &[u8],
    pairs: usize,
    actions: usize,
    i: usize,
    area: &mut [u8],
    marks: &mut [u8],
    separated: usize,
)
    requires passed { Passed graph.now flags.now actions pairs i area.old marks.old separated }
    requires leaving { Leaving graph.now flags.now actions pairs area.old i }
    ensures { PassedFrom graph.now flags.now actions pairs area.old (i + 1) area.new marks.new (separated + 1) }
{
    let h = maker_view::bucket(graph, flags, pairs, actions, &area[..NEW], i);
    let c = found(graph, flags, pairs, actions, area, marks, i, h, separated);
    area_bytes::put_two_bytes(area, NEW + 2 * i, c);
    area_chains::add(area, HEADS, LINKS, h, i);
    maker_marks::note(marks, separated, i);
}

// Looks at pair i if it is marked. Answers how many have left their class then.
fn look(
    graph: &[u8],
    flags: &[u8],
    pairs: usize,
    actions: usize,
    i: usize,
    area: &mut [u8],
    marks: &mut [u8],
    separated: usize,
) -> usize
    requires i_lt_pairs { i < pairs }
    requires passed { Passed graph.now flags.now actions pairs i area.old marks.old separated }
    ensures { PassedFrom graph.now flags.now actions pairs area.old (i + 1) area.new marks.new result }
{
    if !maker_marks::is_marked(marks, i) {
        return separated;
    }
    let first = pair_graph::class(&area[..NEW], i);
    if maker_view::alike(graph, flags, pairs, actions, &area[..NEW], first, i) {
        return separated;
    }
    leave(graph, flags, pairs, actions, i, area, marks, separated);
    separated + 1
}

// Looks at every marked pair. Answers how many leave their class; they are on the list, and their new classes are written.
pub fn look_all(
    graph: &[u8],
    flags: &[u8],
    actions: usize,
    n: usize,
    area: &mut [u8],
    marks: &mut [u8],
) -> usize
    requires { PassReady graph.now flags.now actions n area.old marks.old }
    ensures { PassedFrom graph.now flags.now actions n area.old n area.new marks.new result }
{
    area_bytes::clear(&mut area[HEADS..HEADS_END]);
    let mut separated = 0;
    for i in 0..n {
        separated = look(graph, flags, n, actions, i, area, marks, separated);
    }
    separated
}

// The new classes of the pairs on the list become their classes.
pub fn adopt(n: usize, separated: usize, area: &mut [u8], marks: &[u8])
    requires { ToAdopt n area.old marks.now separated }
    ensures { Adopted n area.old marks.now separated area.new }
{
    for p in 0..separated {
        let i = maker_marks::noted(marks, p);
        let new = area_bytes::two_bytes(area, NEW + 2 * i);
        area_bytes::put_two_bytes(area, 2 * i, new);
    }
}
