// The network that is held: its lists as arrays, with room for more elements and relations than the calls allow.
ghost use Rattle.std.specs.Prelude.{◌≤◌};

use crate::cuts::Cuts;
use crate::words::Words;
use network::lent::{Network, Relations, Windows};
use text::keyword::Slice;
use text::list::{first, read_elements, read_relations};

// How many elements and relations are taken in.
pub const MOST_ELEMENTS: usize = 1100;

const MOST_RELATIONS: usize = 4200;

const HEADINGS: usize = 4400;

// How many windows of a relation are held, and how many minutes of each kind they have in all.
const WINDOWS: usize = 4;

const MINUTES: usize = 16800;

// How many windows of a relation are taken in.
pub const MOST_WINDOWS: usize = 6;

#[derive(Drop)]
pub struct HeldNetwork {
    pub elements: usize,
    pub relations: usize,
    lengths: [f64; MOST_ELEMENTS],
    headings: [f64; HEADINGS],
    flags: [u32; MOST_ELEMENTS],
    from: [u32; MOST_RELATIONS],
    to: [u32; MOST_RELATIONS],
    from_side: [u32; MOST_RELATIONS],
    to_side: [u32; MOST_RELATIONS],
    forward: [u32; MOST_RELATIONS],
    backward: [u32; MOST_RELATIONS],
    window_counts: [u32; MOST_RELATIONS],
    window_firsts: [u32; MINUTES],
    window_lasts: [u32; MINUTES],
}

impl HeldNetwork {
    pub fn empty() -> HeldNetwork {
        HeldNetwork {
            elements: 0,
            relations: 0,
            lengths: [0.0; MOST_ELEMENTS],
            headings: [0.0; HEADINGS],
            flags: [0; MOST_ELEMENTS],
            from: [0; MOST_RELATIONS],
            to: [0; MOST_RELATIONS],
            from_side: [0; MOST_RELATIONS],
            to_side: [0; MOST_RELATIONS],
            forward: [0; MOST_RELATIONS],
            backward: [0; MOST_RELATIONS],
            window_counts: [0; MOST_RELATIONS],
            window_firsts: [0; MINUTES],
            window_lasts: [0; MINUTES],
        }
    }

    fn lend_relations(&self, cuts: &Cuts) -> Relations<'_> {
        let n = self.relations;
        Relations {
            from: first(&self.from, cuts.cut(Slice::From, n)),
            to: first(&self.to, cuts.cut(Slice::To, n)),
            from_side: first(&self.from_side, cuts.cut(Slice::FromSide, n)),
            to_side: first(&self.to_side, cuts.cut(Slice::ToSide, n)),
            forward: first(&self.forward, cuts.cut(Slice::Forward, n)),
            backward: first(&self.backward, cuts.cut(Slice::Backward, n)),
        }
    }

    fn lend_windows(&self, cuts: &Cuts) -> Windows<'_> {
        let n = self.relations.min(MOST_RELATIONS);
        Windows {
            counts: first(&self.window_counts, cuts.cut(Slice::WindowCounts, n)),
            firsts: first(
                &self.window_firsts,
                cuts.cut(Slice::WindowFirsts, WINDOWS * n),
            ),
            lasts: first(
                &self.window_lasts,
                cuts.cut(Slice::WindowLasts, WINDOWS * n),
            ),
        }
    }

    // The network that the next call gets.
    pub fn lend(&self, cuts: &Cuts) -> Network<'_> {
        let n = self.elements.min(MOST_ELEMENTS);
        Network {
            lengths: first(&self.lengths, cuts.cut(Slice::Lengths, n)),
            headings: first(&self.headings, cuts.cut(Slice::Headings, 4 * n)),
            flags: first(&self.flags, cuts.cut(Slice::Flags, n)),
            relations: self.lend_relations(cuts),
            windows: self.lend_windows(cuts),
        }
    }

    // No relation has a window.
    fn clear_windows(&mut self) {
        self.window_counts.fill(0);
        self.window_firsts.fill(0);
        self.window_lasts.fill(0);
    }

    // The network is read from behind the word `network`.
    pub fn read(&mut self, words: &mut Words<'_>) {
        let n = words.count(1100);
        let m = words.count(4200);
        let between = read_elements(
            words.text,
            words.cursor,
            n,
            &mut self.lengths,
            &mut self.headings,
            &mut self.flags,
        );
        words.cursor = read_relations(
            words.text,
            between,
            m,
            &mut self.from,
            &mut self.to,
            &mut self.from_side,
            &mut self.to_side,
            &mut self.forward,
            &mut self.backward,
        );
        self.clear_windows();
        self.elements = n as usize;
        self.relations = m as usize;
    }

    // A relation has so many windows: the first four of those given. Minutes held past them stay.
    pub fn hold_windows(
        &mut self,
        relation: usize,
        count: u32,
        firsts: &[u32; MOST_WINDOWS],
        lasts: &[u32; MOST_WINDOWS],
    ) {
        if relation < MOST_RELATIONS {
            self.window_counts[relation] = count;
            let n = WINDOWS.min(count as usize);
            let start = WINDOWS * relation;
            self.window_firsts[start..start + n].copy_from_slice(&firsts[..n]);
            self.window_lasts[start..start + n].copy_from_slice(&lasts[..n]);
        }
    }
}
