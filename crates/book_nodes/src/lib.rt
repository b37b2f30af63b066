// What the book reader keeps in its lent area while it reads: the nodes, and behind nodes and lines some bytes of its own.
#![tactic(auto)]

ghost use Rattle.std.specs.Prelude.{◌≡◌, [], ◌∷◌, ◌≤◌, length, eqb, leb, ltb, not};
ghost use Rattle.book_nodes.specs.State as State;

// 01, 'Rule book': the most nodes of a book, and the largest number.
pub const MOST_NODES: u8 = 60;

pub const MOST_TICKS: usize = 254;

// The bytes of a node and of a line, where the lines begin, and where the numbers of nodes and of lines stand
// (reading/specs/BookArea).
pub const NODE_SIZE: usize = 4;

pub const LINE_SIZE: usize = 4;

pub const LINES_AT: usize = 240;

pub const NODE_COUNT: usize = 480;

pub const LINE_COUNT: usize = 481;

// Where the reader's own bytes stand (specs/State): the least number of a refusal met, whether the formula read last
// is timed, the number of marks, and the bound where a number is left out.
pub const FAULT: usize = 482;

pub const TIMED: usize = 483;

pub const MARKS: usize = 484;

pub const USUAL: usize = 485;

// The numbers of the refusals that are noted.
pub const NUMBER_FAULT: u8 = 7;

pub const MARK_FAULT: u8 = 8;

pub const LIMIT_FAULT: u8 = 9;

pub const TIMED_FAULT: u8 = 10;

// The codes of nodes (reading/specs/BookArea).
pub const AND: u8 = 4;

pub const OR_FIRST_TIMED: u8 = 5;

pub const OR: u8 = 6;

pub const UNTIL: u8 = 12;

// One more node; where there is no room for it, it is only counted.
fn put(area: &mut [u8], code: u8, number: u8, first: u8, second: u8)
    requires { 512 ≤ length area.old }
    ensures { State.state_of area.new ≡ State.stored (code ∷ number ∷ first ∷ second ∷ []) (State.state_of area.old) }
{
    let n = area[NODE_COUNT];
    if MOST_NODES <= n {
        area[NODE_COUNT] = MOST_NODES + 1;
        return;
    }
    let at = NODE_SIZE * usize::from(n);
    area[at] = code;
    area[at + 1] = number;
    area[at + 2] = first;
    area[at + 3] = second;
    area[NODE_COUNT] = n + 1;
}

// The number of a refusal is noted, if it is less than what was noted before.
pub fn note(area: &mut [u8], fault: u8)
    requires { 512 ≤ length area.old }
    ensures { State.state_of area.new ≡ State.noted fault (State.state_of area.old) }
{
    area[FAULT] = area[FAULT].min(fault);
}

// Whether the formula read last is timed.
fn tell_timed(area: &mut [u8], t: u8)
    requires { 512 ≤ length area.old }
    ensures { State.state_of area.new ≡ State.told_timed t (State.state_of area.old) }
{
    area[TIMED] = t;
}

pub fn is_timed(area: &[u8]) -> u8
    requires { 512 ≤ length area.now }
    ensures { result ≡ (State.state_of area.now).is_timed }
{
    area[TIMED]
}

// The bound where a number is left out.
pub fn usual(area: &[u8]) -> usize
    requires { 512 ≤ length area.now }
    ensures { result ≡ State.usual_in area.now }
{
    usize::from(area[USUAL])
}

// The number of the node read last.
pub fn last_node(area: &[u8]) -> u8
    requires { 512 ≤ length area.now }
    ensures { result ≡ State.last_node (State.state_of area.now) }
{
    area[NODE_COUNT].saturating_sub(1)
}

// A node without parts.
pub fn leaf(area: &mut [u8], code: u8, number: u8)
    requires { 512 ≤ length area.old }
    ensures { State.state_of area.new ≡ State.leaf code number (State.state_of area.old) }
{
    put(area, code, number, 0, 0);
    tell_timed(area, 0);
}

// MARK_FAULT is noted if there is no such mark.
fn note_mark(area: &mut [u8], value: usize)
    requires { 512 ≤ length area.old }
    ensures { State.state_of area.new ≡ State.noted_if (leb (State.state_of area.old).marks value) 8 (State.state_of area.old) }
{
    let marks = usize::from(area[MARKS]);
    if value < marks {
        return;
    }
    note(area, MARK_FAULT);
}

// A node of a mark.
pub fn mark_node(area: &mut [u8], code: u8, value: usize)
    requires { 512 ≤ length area.old }
    ensures { State.state_of area.new ≡ State.mark_node code value (State.state_of area.old) }
{
    note_mark(area, value);
    leaf(area, code, (value % 256) as u8);
}

// An opening bracket, where there is room for so many: LIMIT_FAULT is noted if there is none. Answers the room that is left.
pub fn open(area: &mut [u8], room: usize) -> usize
    requires { 512 ≤ length area.old }
    ensures { State.Opens result room area.old area.new }
{
    if room == 0 {
        note(area, LIMIT_FAULT);
        return 0;
    }
    room - 1
}

// A node of `&`, its second part read last: the first part's number, and whether that is timed.
pub fn and_node(area: &mut [u8], first: u8, timed: u8)
    requires { 512 ≤ length area.old }
    ensures { State.state_of area.new ≡ State.and_node first timed (State.state_of area.old) }
{
    let second = last_node(area);
    put(area, AND, 0, first, second);
    if timed == 0 {
        return;
    }
    tell_timed(area, 1);
}

// The same of `|`, with another code where the first part is timed.
pub fn or_node(area: &mut [u8], first: u8, timed: u8)
    requires { 512 ≤ length area.old }
    ensures { State.state_of area.new ≡ State.or_node first timed (State.state_of area.old) }
{
    let second = last_node(area);
    if timed == 0 {
        put(area, OR, 0, first, second);
        return;
    }
    put(area, OR_FIRST_TIMED, 0, first, second);
    tell_timed(area, 1);
}

// TIMED_FAULT is noted if the formula read last is timed.
fn note_timed(area: &mut [u8])
    requires { 512 ≤ length area.old }
    ensures { State.state_of area.new ≡ State.noted_if (not (eqb (State.state_of area.old).is_timed 0)) 10 (State.state_of area.old) }
{
    if is_timed(area) == 0 {
        return;
    }
    note(area, TIMED_FAULT);
}

// NUMBER_FAULT is noted if the number is above the largest there may be.
fn note_number(area: &mut [u8], amount: usize)
    requires { 512 ≤ length area.old }
    ensures { State.state_of area.new ≡ State.noted_if (ltb 254 amount) 7 (State.state_of area.old) }
{
    if amount <= MOST_TICKS {
        return;
    }
    note(area, NUMBER_FAULT);
}

// A node with a bound, its last part read last.
pub fn bounded_node(area: &mut [u8], code: u8, amount: usize, first: u8)
    requires { 512 ≤ length area.old }
    ensures { State.state_of area.new ≡ State.bounded_node code amount first (State.state_of area.old) }
{
    let second = last_node(area);
    note_number(area, amount);
    put(area, code, (amount % 256) as u8, first, second);
    tell_timed(area, 1);
}

// A node of `U`, whose second part may not be timed.
pub fn until_node(area: &mut [u8], amount: usize, first: u8)
    requires { 512 ≤ length area.old }
    ensures { State.state_of area.new ≡ State.until_node amount first (State.state_of area.old) }
{
    note_timed(area);
    bounded_node(area, UNTIL, amount, first);
}
