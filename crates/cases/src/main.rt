// Answers six files of cases: dumps put to the check, dumps in pieces, questions to the reader, calls that write, dumps that are mended, and name files.
#![tactic(auto)]

fn main(rt: HostRuntime) {
    for path in ["check", "pieces", "reader", "writer", "mender", "names"] {
        replies::answer_file(&rt, path.as_bytes());
    }
}
