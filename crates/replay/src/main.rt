// A log of calls from standard input, everything that each call did to standard output.
#![tactic(auto)]

fn main() {
    replayer::run::replay();
}
