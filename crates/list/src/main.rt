// Lists the names of the symbols on standard input, one a line.
#![tactic(auto)]

use listing::listing::Kind;

fn main(rt: HostRuntime) {
    console::entry::run(
        &mut rt.stdin(),
        &mut rt.stdout(),
        &mut rt.stderr(),
        Kind::Names,
    );
}
