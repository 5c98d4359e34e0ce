// Routes between sides, and triples of elements.
use crate::fill::{FILL, words_kept};
use crate::held_network::MOST_ELEMENTS;
use crate::print::Output;
use crate::session::Session;
use crate::words::Words;
use network::triple::triple_is_consistent;
use routing::route::{ListedRoute, Side, shortest_path_route};
use text::keyword::Slice;
use text::list::first;

// More than the states of the longest route.
const STATES: usize = 4200;

fn print_route(out: &mut Output, route: ListedRoute, states: &[u32]) {
    out.bytes(b"route");
    out.float(route.cost);
    out.count(route.states);
    out.end_line();
    if let Some((start, others)) = states.split_first() {
        out.digits(*start);
        for state in others {
            out.number(*state);
        }
    }
    out.end_line();
}

fn read_side(words: &mut Words<'_>) -> Side {
    let element = words.number();
    let side = words.number();
    Side { element, side }
}

// A side by its number: 2 times element plus side.
fn side_of(node: u32) -> Side {
    Side {
        element: node / 2,
        side: node % 2,
    }
}

impl Session {
    fn find_route(&mut self, start: Side, goal: Side) {
        let mut states = [FILL; STATES];
        let room = self.cuts.cut(Slice::Answer, STATES);
        let net = self.network.lend(&self.cuts);
        let answer = shortest_path_route(&net, self.minute, start, goal, &mut states[..room]);
        self.cuts.release_asked();
        let mut n = 0;
        match answer {
            Ok(None) => self.out.bytes(b"route none\n"),
            Ok(Some(route)) => {
                n = route.states;
                print_route(&mut self.out, route, first(&states, n));
            }
            Err(refusal) => self.out.refusal(b"route", refusal),
        }
        self.kept = words_kept(&states, n);
    }

    pub fn route(&mut self, words: &mut Words<'_>) {
        let start = read_side(words);
        let goal = read_side(words);
        if !words.bad() {
            self.find_route(start, goal);
        }
    }

    // Every known side to every known side. The first call takes the cuts.
    pub fn routes(&mut self) {
        let nodes = 2 * self.network.elements.min(MOST_ELEMENTS) as u32;
        for start in 0..nodes {
            for goal in 0..nodes {
                self.find_route(side_of(start), side_of(goal));
            }
        }
    }

    pub fn triple(&mut self, words: &mut Words<'_>) {
        let a = words.number();
        let b = words.number();
        let c = words.number();
        if words.bad() {
            return;
        }
        let answer = triple_is_consistent(&self.network.lend(&self.cuts), self.minute, a, b, c);
        self.cuts.release(Slice::Lengths, Slice::WindowLasts);
        match answer {
            Ok(true) => self.out.bytes(b"triple yes\n"),
            Ok(false) => self.out.bytes(b"triple no\n"),
            Err(refusal) => self.out.refusal(b"triple", refusal),
        }
    }
}
