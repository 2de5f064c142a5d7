// Lists the report file that stands on standard input. Standard error has one line: `accepted`, the line of a refusal, or what could not be read or written.
#![tactic(auto)]

fn main(rt: HostRuntime) {
    let err = rt.stderr();
    let done = listed::print_input(&mut rt.stdin(), &rt.stdout(), &err);
    listed::tell(&err, done);
}
