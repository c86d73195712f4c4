// Answers the cases of the file `cases`, which an independent implementation made together with the answers.
#![tactic(auto)]

fn main(rt: HostRuntime) {
    replies::answer_file(&rt, b"cases");
}
