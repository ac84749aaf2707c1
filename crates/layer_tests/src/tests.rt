//! What no clause says: that calls succeed, and that the clauses mean what was meant, by scripts of calls.

mod closings;
mod collections;
mod feeds;
mod keys;
mod marks;
mod rules;
mod script;
mod tables;
mod transactions;
mod versions;

use closing::Closing;
use collections::Held;
use feeds::Served;
use key_set::KeySet;
use key_table::KeyTable;
use read_marks::{Readers, SpanMarks};
use rules::Played;
use script::play;
use std::process::Abort;
use txn_table::Txns;
use version_chain::Store;

#[test]
fn layers(rt: HostRuntime) {
    play(&rt, &mut Closing::new(rt.alloc()), closings::SCRIPT);
    play_keys(&rt);
    play(&rt, &mut Txns::new(rt.alloc()), transactions::SCRIPT);
    play_versions(&rt);
    play(&rt, &mut Held::new(rt.alloc()), collections::SCRIPT);
    play(&rt, &mut Served::new(rt.alloc()), feeds::SCRIPT);
    play_marks(&rt);
    play_rules(&rt);
}

fn play_keys(rt: &(impl Abort + AllocGlobal)) {
    play(rt, &mut KeySet::new(rt.alloc()), keys::SCRIPT);
    play(rt, &mut KeyTable::new(rt.alloc()), tables::SCRIPT);
}

fn play_versions(rt: &(impl Abort + AllocGlobal)) {
    for script in versions::SCRIPTS {
        play(rt, &mut Store::new(rt.alloc()), script);
    }
}

fn play_marks(rt: &(impl Abort + AllocGlobal)) {
    for script in marks::SPANS {
        play(rt, &mut SpanMarks::new(rt.alloc()), script);
    }
    for script in marks::KEYS {
        play(rt, &mut Readers::new(rt.alloc()), script);
    }
    assert!(rt; marks::raises_agree(rt.alloc()) == Some(true));
    assert!(rt; marks::notes_agree(rt.alloc()) == Some(true));
}

fn play_rules(rt: &(impl Abort + AllocGlobal)) {
    for script in rules::SCRIPTS {
        play(rt, &mut Played::new(rt.alloc(), script), script);
    }
}
