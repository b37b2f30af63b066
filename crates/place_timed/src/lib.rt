// Where in a line of a rule book N, A, E or U may not stand: behind E, or in the second part of U. The line
// is of the grammar and within the limits. The book reader says that it is so, and is proved to be right;
// this only looks for the place, and is proved to be safe.
#![tactic(auto)]

// What is known up to a place: how many brackets are open, of each of them whether no such letter may
// stand in it, and whether the unit behind E comes.
#[derive(Drop)]
struct Known {
    open: usize,
    barred: [bool; 32],
    behind_e: bool,
}

impl Known {
    // Whether no such letter may stand here.
    fn bars(&self) -> bool {
        self.behind_e || self.barred.get(self.open).copied().unwrap_or(false)
    }

    // Keeps whether one may stand in the bracket that is open last; there is room for those of a line.
    fn keep(&mut self, bars: bool) {
        if let Some(kept) = self.barred.get_mut(self.open) {
            *kept = bars;
        }
    }

    // A bracket is opened.
    fn opens(&mut self) {
        let bars = self.bars();
        self.open = self.open.saturating_add(1);
        self.keep(bars);
    }

    // A byte is passed.
    fn pass(&mut self, b: u8) {
        match b {
            b'(' => self.opens(),
            b')' => self.open = self.open.saturating_sub(1),
            b',' => self.keep(true),
            _ => {}
        }
        self.behind_e = match b {
            b'E' => true,
            b'N' | b'A' | b'U' | b'T' | b'F' | b'p' | b'(' | b')' | b',' => false,
            _ => self.behind_e,
        };
    }
}

// The place of a letter that may not stand where it does.
pub fn timed_place(line: &[u8]) -> Option<usize> {
    let mut known = Known {
        open: 0,
        barred: [false; 32],
        behind_e: false,
    };
    for (at, b) in line.iter().enumerate() {
        if matches!(*b, b'N' | b'A' | b'E' | b'U') && known.bars() {
            return Some(at);
        }
        known.pass(*b);
    }
    None
}
