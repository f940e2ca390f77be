//! A chain of nodes: node k's first child is the literal of variable k % 8 + 1, the second the bit (2 sum, 3 carry) of node k - 1, the
//! third, of a full node (kind 2), the negated literal of variable k % 8 + 9. At the chain's end stands the literal of variable 17.

/// Lays the chain into the table; the answer is the last node's bit. Kind and bit are words, of which any may be tried.
pub fn links(nodes: &mut [u32], kind: u32, bit: u32, count: u32) -> u32 {
    let mut before = 68;
    for k in 0..count {
        link(nodes, k, kind, before);
        before = k % 4096 * 4 + bit % 4;
    }
    before
}

/// One node, with no variables and no marks; what is beyond the table is left out.
fn link(nodes: &mut [u32], k: u32, kind: u32, before: u32) {
    let first = k % 8 * 4 + 4;
    let third = if kind == 2 { k % 8 * 4 + 37 } else { 0 };
    let record = [kind, first, before, third, 0, 0, 0, 0];
    if let Some(rest) = nodes.get_mut(k as usize * 8..) {
        for (word, new) in rest.iter_mut().zip(record) {
            *word = new;
        }
    }
}
