//! What a case holds beside its tables, and what its commands do.
use crate::chain::links;
use buckets::{Built, Needs};
use comparators::{Filled, Need};
use emitter::Cursor;
use literal::{Direction, MOST_NODES, MOST_TERMS, OUTPUTS};
use source::Source;
use try_io::{Numbers, first_of, say, say_all};

/// The state of a case, without its tables.
#[derive(Drop)]
pub struct Machine {
    weights: [u32; 128],
    words: [u32; 128],
    count: usize,
    outputs: [u32; 48],
    len: usize,
    nodes: u32,
    cursor: Cursor,
}

impl Machine {
    /// Nothing but the next number and the fill.
    pub fn new(next: u32, fill: usize) -> Self {
        Machine {
            weights: [0; 128],
            words: [0; 128],
            count: 0,
            outputs: [0; 48],
            len: 0,
            nodes: 0,
            cursor: Cursor {
                next,
                fill,
                clauses: 0,
            },
        }
    }

    pub fn add_term(&mut self, weight: u32, word: u32) {
        if self.count < MOST_TERMS {
            self.weights[self.count] = weight;
            self.words[self.count] = word;
            self.count += 1;
        }
    }

    pub fn add_many(&mut self, numbers: &mut Numbers) {
        let count = numbers.count();
        let start = numbers.read();
        let factor = numbers.read();
        let most = numbers.read();
        let mut x = stepped(start, 0, most);
        for j in 0..count {
            self.add_term(source::after(x), many_word(j));
            x = stepped(x, factor, most);
        }
    }

    pub fn build(&mut self, rt: &impl Print, nodes: &mut [u32]) {
        if MOST_TERMS < self.count || OUTPUTS < self.len || MOST_NODES < self.nodes as usize {
            return;
        }
        let needs = buckets::needs_after(
            self.weights,
            self.count,
            self.outputs,
            self.len,
            self.nodes,
        );
        say_needs(rt, needs);
        let built = buckets::extend_structure(
            self.weights,
            self.words,
            self.count,
            self.outputs,
            self.len,
            nodes,
            self.nodes,
        );
        say_built(rt, &built);
        self.outputs = built.outputs;
        self.len = built.len;
        self.nodes = built.count;
        self.count = 0;
    }

    pub fn emit(
        &mut self,
        rt: &impl Print,
        direction: Direction,
        nodes: &mut [u32],
        clauses: &mut [i32],
    ) {
        let mut cursor = self.cursor;
        let outputs = first_of(&self.outputs, self.len);
        emitter::emit_outputs(nodes, clauses, &mut cursor, outputs, direction, self.nodes);
        say_cursor(rt, cursor);
        self.cursor = cursor;
    }

    pub fn fetch(
        &mut self,
        rt: &impl Print,
        numbers: &mut Numbers,
        nodes: &mut [u32],
        clauses: &mut [i32],
    ) {
        let connection = numbers.read();
        let direction = numbers.read();
        let limit = numbers.read();
        emitter::fetch(
            nodes,
            clauses,
            &mut self.cursor,
            connection,
            direction,
            limit,
        );
        say_cursor(rt, self.cursor);
    }

    pub fn reserve(&mut self, rt: &impl Print, nodes: &mut [u32]) {
        let mut next = self.cursor.next;
        let outputs = first_of(&self.outputs, self.len);
        emitter::reserve::reserve_outputs(nodes, &mut next, outputs, self.nodes);
        say(rt, next);
        self.cursor.next = next;
    }

    pub fn compare(
        &mut self,
        rt: &impl Print,
        numbers: &mut Numbers,
        nodes: &[u32],
        clauses: &mut [i32],
    ) {
        let direction = numbers.read();
        let bound = numbers.read();
        let own = numbers.read();
        let len = self.len;
        if OUTPUTS < len {
            return;
        }
        let codes = comparators::resolve(nodes, self.outputs);
        say_need(rt, comparators::need_of(&codes, len, direction, bound));
        let pairs = comparators::pairs_of(codes);
        let mut row = [0; 50];
        let mut filled = Filled {
            fill: self.cursor.fill,
            clauses: self.cursor.clauses,
        };
        comparators::comparator(
            clauses,
            &mut row,
            &pairs,
            len,
            direction,
            bound,
            own,
            &mut filled,
        );
        say(rt, filled.fill);
        say(rt, filled.clauses);
        self.cursor.fill = filled.fill;
        self.cursor.clauses = filled.clauses;
    }

    pub fn gate(&mut self, rt: &impl Print, numbers: &mut Numbers, clauses: &mut [i32]) {
        let gate = numbers.read::<u32>();
        let mut words = [0; 4];
        numbers.fill(&mut words);
        let fill = gates::put_gate_by(clauses, self.cursor.fill, gate, words);
        say(rt, fill);
        say(rt, gates::gate_clauses_by(gate));
        self.cursor.fill = fill;
    }

    pub fn lay_outputs(&mut self, numbers: &mut Numbers) {
        let len = numbers.count();
        let mut outputs = [0; 48];
        numbers.lay(len, &mut outputs);
        self.outputs = outputs;
        self.len = len;
    }

    pub fn lay_nodes(&mut self, numbers: &mut Numbers, nodes: &mut [u32]) {
        let place = numbers.count();
        self.nodes = numbers.read();
        let count = numbers.count();
        let place = place.min(nodes.len());
        numbers.lay(count, &mut nodes[place..]);
    }

    pub fn lay_chain(&mut self, numbers: &mut Numbers, nodes: &mut [u32]) {
        let kind = numbers.read();
        let bit = numbers.read();
        let count = numbers.read();
        let mut outputs = [0; 48];
        outputs[0] = links(nodes, kind, bit, count);
        self.outputs = outputs;
        self.len = 1;
        self.nodes = count;
    }

    pub fn draw(&mut self, rt: &impl Print) {
        let mut source = Source::new(self.cursor.next);
        let number = source.take();
        let next = source.next();
        say(rt, number);
        say(rt, next);
        say(rt, source::after(next));
        self.cursor.next = next;
    }
}

/// The weight below a term's, `factor` further on and below `most`.
fn stepped(x: u32, factor: u32, most: u32) -> u32 {
    if most == 0 {
        return 0;
    }
    ((u64::from(x) + u64::from(factor)) % u64::from(most)) as u32
}

/// The connection word of place j's literal.
fn many_word(j: usize) -> u32 {
    let variable = (j % 128) as u32 + 1;
    variable * 4 + u32::from(variable % 2 == 0)
}

fn say_needs(rt: &impl Print, needs: Needs) {
    say(rt, needs.positions);
    say(rt, needs.nodes);
}

fn say_built(rt: &impl Print, built: &Built) {
    say(rt, built.len);
    say(rt, built.count);
    say_all(rt, &built.outputs);
}

fn say_cursor(rt: &impl Print, cursor: Cursor) {
    say(rt, cursor.next);
    say(rt, cursor.fill);
    say(rt, cursor.clauses);
}

fn say_need(rt: &impl Print, need: Need) {
    say(rt, need.words);
    say(rt, need.clauses);
}
