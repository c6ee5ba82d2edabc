// The edges of the ten actions, of joins, of small shares and of a cost's day, by running: standard input has the calls, one a line, and
// behind each # what the papers give: the answer, or of a printed crew its valid costs, gifts, raw balances, parts and balances.
#![tactic(auto)]

use calls::Images;

fn main() {
    let mut text = [0u8; 65536];
    let n = io::read_full(0, &mut text);
    let mut images = Images::new();
    images.run(&text[..n]);
}
