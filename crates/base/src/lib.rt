// The answers of the six entries, and the one type of refusal that they share.
// 01, 'Why a call is turned down', and 02; specs/Answers.antt gives number, place and values of every case.
#![tactic(auto)]

ghost use Rattle.std.specs.Prelude.{◌≡◌};
ghost use Rattle.base.specs.declared.Rejection.TheVariants.{NotGood, Refused};

// Why the checker does not call a table good: the letter of 01, with the row for b to d.
#[derive(Clone, Copy, PartialEq, Eq)]
pub enum Reason {
    // a: row 0 has not the tower's start state.
    Start,
    // b: an enabled action that may not be withheld is not allowed in this row.
    Withheld(usize),
    // c: in this row an allowed action is not enabled, or its target row has another state than the one reached.
    WrongStep(usize),
    // d: this row does not go on.
    Stopped(usize),
    // e: an allowed run is broken.
    Broken,
}

// Why a call is turned down, a case for each number of 01 and 02 in its order, but 14: a table that is not good is a
// case of the answer. A rule book's refusal carries its line, and so does a log's.
#[derive(Clone, Copy, PartialEq, Eq)]
pub enum Refusal {
    // 1: the tower's length, or an offset in its header.
    TowerSize,
    // 2: a count or the start state out of range.
    Range,
    // 3: an action of length 0, or of an unknown kind.
    Action,
    // 4: a target that is neither a state nor 'not enabled'.
    Target,
    // 5: a mark that the tower does not have.
    Mask,
    // 6: the line is not of the grammar.
    Grammar(usize),
    // 7: the line has a number above 254.
    Number(usize),
    // 8: the line has a mark at or above P.
    Mark(usize),
    // 9: the book is too long, or the line goes past the nodes or the open brackets there may be.
    Limit(usize),
    // 10: the line has a timed formula where none may be.
    Timed(usize),
    // 11: more pairs than there may be.
    Pairs,
    // 12: no good table.
    NoTable,
    // 13: the table is not laid out as a table file, or not for this tower.
    Layout,
    // 15: a work area is too short.
    Area,
    // 16: the output is too short.
    Output,
    // 17: the row or the action lies outside the table.
    Outside,
    // 18: the action is not allowed in that row.
    NotAllowed,
    // 19: this line of the log is not of its form.
    Log(usize),
    // 20: a step gives more alternatives than there may be.
    Alternatives,
}

// Why a table is not called good: it is not, or the call is turned down before that is asked.
#[derive(Clone, Copy, PartialEq, Eq)]
pub enum Rejection {
    // 14: the table is not good.
    NotGood(Reason),
    Refused(Refusal),
}

impl From<Reason> for Rejection {
    ghost from_gives = { λ reason made. made ≡ NotGood reason };

    fn from(reason: Reason) -> Rejection {
        Rejection::NotGood(reason)
    }
}

impl From<Refusal> for Rejection {
    ghost from_gives = { λ why made. made ≡ Refused why };

    fn from(why: Refusal) -> Rejection {
        Rejection::Refused(why)
    }
}

// How many lines and nodes a rule book has.
#[derive(Clone, Copy, PartialEq, Eq)]
pub struct BookSize {
    pub lines: usize,
    pub nodes: usize,
}

// What a log comes to along a table.
#[derive(Clone, Copy, PartialEq, Eq)]
pub enum LogEnd {
    // Every line fits: the final row.
    Row(usize),
    // The first line that does not fit.
    Line(usize),
}

// A shortest allowed run that is broken: its length, the lowest line that it breaks, and the position.
#[derive(Clone, Copy, PartialEq, Eq)]
pub struct BrokenRun {
    pub length: usize,
    pub line: usize,
    pub position: usize,
}

// What the book reader answers.
pub type BookAnswer = Result<BookSize, Refusal>;

// What the maker answers: the length of the table in bytes.
pub type MakeAnswer = Result<usize, Refusal>;

// What the checker answers: the table is good, or why not.
pub type Verdict = Result<(), Rejection>;

// What the follower answers: the row that the action leads to.
pub type FollowAnswer = Result<usize, Refusal>;

// What the log reader answers. It rejects a table for the reasons from a to d.
pub type LogAnswer = Result<LogEnd, Rejection>;

// What the entry answers that shows why a table is not good: nothing for a good one; for 14 e the run, which is
// in the lent list; and else why the checker rejects it.
pub type WhyAnswer = Result<Option<BrokenRun>, Rejection>;
