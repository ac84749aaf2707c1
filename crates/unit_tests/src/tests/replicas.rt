//! What a replica answers, by scripts of calls.

mod playing;
mod scripts;

use playing::is_answered;

#[test]
fn replicas_answer_as_the_tables_say(rt: HostRuntime) {
    for script in scripts::SCRIPTS.split("\n\n") {
        let mut replica = None;
        for line in script.lines() {
            assert!(rt;
                is_answered(rt.alloc(), &mut replica, line) == Some(true),
                "{line} in {script}"
            );
        }
    }
}
