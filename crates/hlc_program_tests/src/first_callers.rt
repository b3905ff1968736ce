// The first callers that the docs of the crates over text show.

use csv::ByteRecord;
use hlc_core::{ActionRef, Cluster};
use hlc_csv::{read_next, script_reader};
use hlc_examples::{acting_node, answer_question, first_number, judge_log, run_and_export};
use hlc_stamp::{NodeId, Settings};
use hlc_text::Question;
use std::alloc::Global;
use std::process::Abort;

#[test]
fn the_first_field_is_a_number(rt: HostRuntime) {
    let found = first_number(rt.alloc(), b"12,a\n7\n".as_slice());
    let number = found.expect(&rt, "memory").expect(&rt, "a record");
    assert!(rt; number == Some(12));
}

fn expect_node(rt: &impl Abort, alloc: Global, text: &str, node: Option<NodeId>) {
    let mut record = ByteRecord::new(alloc);
    let mut input = script_reader(alloc, text.as_bytes());
    assert!(rt;
        read_next(&mut input, &mut record)
            .expect(rt, "a record")
            .is_none()
    );
    assert!(rt; acting_node(alloc, &record).expect(rt, "a statement") == node);
}

#[test]
fn a_write_is_an_act(rt: HostRuntime) {
    expect_node(&rt, rt.alloc(), "write,3,10,cart,apples\n", Some(NodeId(3)));
    expect_node(&rt, rt.alloc(), "get,3,cart\n", None);
}

#[test]
fn a_log_in_memory_is_judged(rt: HostRuntime) {
    let log = b"local,0,10,10,0\nlocal,0,10,11,0\n".as_slice();
    let rows = judge_log(rt.alloc(), log).expect(&rt, "rows");
    assert!(rt; rows.as_slice() == b"verdict,0,least\nverdict,1,ahead,10,1\n".as_slice());
}

#[test]
fn a_question_is_answered(rt: HostRuntime) {
    let (key, value) = (b"cart".as_slice(), b"apples".as_slice());
    let mut cluster = Cluster::new(rt.alloc(), 2, 16).expect(&rt, "a cluster");
    let write = ActionRef::Write { key, value };
    cluster.ask(NodeId(0), 10, write).expect(&rt, "an event");
    let node = NodeId(0);
    let text = answer_question(rt.alloc(), &cluster, Question::Get { node, key });
    assert!(rt;
        text.expect(&rt, "a text").as_slice() == b"entry,cart,10,0,0,0,apples\n".as_slice()
    );
}

#[test]
fn a_run_is_exported(rt: HostRuntime) {
    let script = b"write,0,10,cart,apples\nget,0,cart\nlose,0\n".as_slice();
    let settings = Settings {
        nodes: 2,
        capacity: 16,
        limit: None,
    };
    let mut answers = Vec::new(rt.alloc());
    let left = run_and_export(rt.alloc(), script, settings, &mut answers);
    let (ran, exported) = left.expect(&rt, "a history");
    assert!(rt; ran.history.len() == 1);
    let counts = ran.counts;
    assert!(rt; counts.records == 3 && counts.events == 1 && counts.refused == 1);
    assert!(rt; exported.as_slice() == b"write,0,10,cart,apples\n".as_slice());
    assert!(rt;
        answers.as_slice()
            == b"event,0,10,0\nentry,cart,10,0,0,0,apples\nrefused,no-message\n".as_slice()
    );
}
