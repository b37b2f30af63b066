// Which safe pairs make one row: the classes of pairs that no action ever tells apart, by partition refinement (02, item 5).
#![tactic(auto)]

ghost use Rattle.std.specs.Prelude.{◌≤◌, length};
ghost use Rattle.maker_classes.specs.Passes.{ReadyForPass, Begun, FurtherPass, PassReady, PassMade, Classified};

mod pass;

// Writes the class of each of n pairs, two bytes each, from the first byte of `classes` on. All pairs are of one class at first;
// each pass separates those that look different, until one separates none. Answers how many passes were made.
pub fn classify(
    graph: &[u8],
    flags: &[u8],
    actions: usize,
    n: usize,
    classes: &mut [u8],
    marks: &mut [u8],
) -> usize
    requires { ReadyForPass graph.now flags.now actions n classes.old marks.old }
    ensures { Classified graph.now flags.now actions n classes.new result }
{
    begin(flags, n, classes, marks);
    let mut made = 0;
    let mut separated = 0;
    while goes_on(made, separated) {
        separated = make_pass(graph, flags, actions, n, classes, marks);
        made += 1;
    }
    made
}

// All pairs are of one class, and every safe pair is looked at in the first pass.
fn begin(flags: &[u8], n: usize, classes: &mut [u8], marks: &mut [u8])
    requires n_in_bounds { n ≤ length flags.now }
    requires n_in_bounds_2 { n ≤ length marks.old }
    ensures { Begun n flags.now classes.new marks.new }
{
    area_bytes::clear(classes);
    maker_marks::mark_safe(flags, n, marks);
}

// A further pass is made: it is the first, or the last one separated some pairs.
fn goes_on(made: usize, separated: usize) -> bool
    ensures { FurtherPass made separated result }
{
    if made == 0 {
        return true;
    }
    0 < separated
}

// One pass. Answers how many pairs it gave another class.
fn make_pass(
    graph: &[u8],
    flags: &[u8],
    actions: usize,
    n: usize,
    classes: &mut [u8],
    marks: &mut [u8],
) -> usize
    requires { PassReady graph.now flags.now actions n classes.old marks.old }
    ensures { PassMade graph.now flags.now actions n classes.old result classes.new marks.new }
{
    let separated = pass::look_all(graph, flags, actions, n, classes, marks);
    pass::adopt(n, separated, classes, marks);
    maker_marks::mark_again(
        graph,
        flags,
        actions,
        n,
        &classes[..pass::NEW],
        marks,
        separated,
    );
    separated
}
