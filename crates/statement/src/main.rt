// The program `statement`: standard input holds one image, or own and other. It is run here on C1 of the paper.
#![tactic(auto)]

fn main() {
    program::run();
}
