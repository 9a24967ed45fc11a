// turnlist: reads a job file from standard input and writes its printout to standard output, page by page.
// Not in the source.
#![tactic(auto)]

fn main(rt: HostRuntime) {
    pages::print_file(&rt, &mut rt.stdin());
}
